//! The laws of equations that rows of constraints border.

ghost use Rattle.rb_bordered.specs.Laws.{BorderedSolves, RigidBorderedSolves, CouplingIs, RowPivotsAreOne, BorderedExists};

/// What is found by the coupling of the rows, where no pivot of the table and none of the rows is
/// zero, is the one solution of the bordered equations, with compliance and without.
pub fn bordered_law()
    ensures compliant { BorderedSolves }
    ensures rigid { RigidBorderedSolves }
{}

/// The coupling of two rows is what the one has at the solution for the other, and the factors of
/// rows have one list of pivots.
pub fn coupling_law()
    ensures coupling { CouplingIs }
    ensures pivots { RowPivotsAreOne }
{}

/// The rows have factors, and for any right sides numbers are found by them.
pub fn existence_law()
    ensures { BorderedExists }
{}
