//! The laws of exact fractions.

ghost use Rattle.rb_frac.specs.Laws.{IsEquivalence, KeepsSame, IsField, IsOrdered};
ghost use Rattle.rb_frac.specs.System.{Solvable};

/// To be the same number, by cross-multiplication, is an equivalence.
pub fn same_law()
    ensures { IsEquivalence }
{}

/// Sums, negatives, differences, products, quotients and the order of the same numbers are the same.
pub fn keeps_same_law()
    ensures { KeepsSame }
{}

/// With that equality the fractions are a field: each number but zero has an inverse.
pub fn field_law()
    ensures { IsField }
{}

/// The order is total, and kept by sums and by products with what is not negative.
pub fn order_law()
    ensures { IsOrdered }
{}

/// Where each pivot differs from zero, a system over fractions has exactly one solution.
pub fn solvable_law()
    ensures { Solvable }
{}
