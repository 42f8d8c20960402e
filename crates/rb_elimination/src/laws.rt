//! The laws of elimination on the paths of a tree.

ghost use Rattle.rb_elimination.specs.Laws.{StepsEliminate, PivotsEliminate, FactorsAreOne, FactorsTellTable, FactorsMultiplyOut, PivotsSolve, FactorsSolve, EliminationSolves, FactorsExist, TableExists, FoundExists};
ghost use Rattle.rb_elimination.specs.Examples.{IsWorked};

/// The elimination of a symmetric table that is zero off the paths, from the last column on, keeps
/// zero what is off the paths, so it need not touch it: the steps on the paths leave what those of
/// the whole table leave, and meet a zero pivot exactly where those do.
pub fn elimination_law()
    ensures steps { StepsEliminate }
    ensures pivots { PivotsEliminate }
{}

/// A table has one pair of factors, and factors have one table. The factors of a table multiply out
/// to it where no pivot is zero.
pub fn factor_law()
    ensures factors { FactorsAreOne }
    ensures table { FactorsTellTable }
    ensures product { FactorsMultiplyOut }
{}

/// The equations of a table of the tree have exactly one solution for every right side, where no
/// pivot is zero. Factors without a zero pivot find the one solution of the equations of the table
/// that has them, by their transposed lower triangle, by their diagonal and by their lower triangle,
/// and so the factors of a table find that of its equations.
pub fn solution_law()
    ensures one { PivotsSolve }
    ensures factors { FactorsSolve }
    ensures table { EliminationSolves }
{}

/// Each table has factors, any factors have a table, and find numbers for each right side.
pub fn existence_law()
    ensures factors { FactorsExist }
    ensures table { TableExists }
    ensures found { FoundExists }
{}

/// A branched tree of three columns, worked by hand: its table, its factors, and what they find.
pub fn example_law()
    ensures { IsWorked }
{}
