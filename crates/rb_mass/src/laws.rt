//! What the answer of a row is, whatever a work held before.

ghost use Rattle.rb_tree.specs.Robot.{Tree, AreBodies};
ghost use Rattle.rb_tree.specs.State.{Row};
ghost use Rattle.rb_mass.specs.Mass.{MassHasOneAnswer, RowHasOneAnswer, AnswerMeans};

/// The mass table for the places of a work, or the refusal, is the same whatever else the work held; that of a robot in a row is the same whatever it held.
/// It is the table of values that are what their rules give, or the refusal of the first name whose rule refuses.
pub fn answer_law()
    ensures one { (tree : Tree) → AreBodies tree.bodies → MassHasOneAnswer tree }
    ensures row { (tree : Tree) (row : Row) → AreBodies tree.bodies → RowHasOneAnswer tree row }
    ensures means { (tree : Tree) (row : Row) → AreBodies tree.bodies → AnswerMeans tree row }
{}
