//! What the answer of a row is, whatever a work held before.

ghost use Rattle.rb_tree.specs.Robot.{Tree, AreBodies};
ghost use Rattle.rb_tree.specs.State.{Row};
ghost use Rattle.rb_aba.specs.Forward.{AllLead, HasOneAnswer, AnswerMeans, AnswerEncloses};

/// The accelerations of a robot in a row, or the refusal, are the same whatever a work held before: those of values that are what their rules give, or
/// that of the first name whose rule refuses. Where there are such values, the equations of motion of each choice within the brackets have exactly one
/// solution with its torques, and it lies in them. No joint of the robot follows another.
pub fn answer_law()
    ensures one { (tree : Tree) (row : Row) → AreBodies tree.bodies → AllLead tree → HasOneAnswer tree row }
    ensures means { (tree : Tree) (row : Row) → AreBodies tree.bodies → AllLead tree → AnswerMeans tree row }
    ensures encloses { (tree : Tree) (row : Row) → AreBodies tree.bodies → AllLead tree → AnswerEncloses tree row }
{}
