//! What the answer of a row is, whatever a work held before.

ghost use Rattle.rb_tree.specs.Robot.{Tree, AreBodies};
ghost use Rattle.rb_tree.specs.State.{Row};
ghost use Rattle.rb_rnea.specs.Dynamics.{HasOneAnswer, AnswerMeans, AnswerEncloses};

/// The torques of a robot in a row, or the refusal, are the same whatever a work held before: those of values that are what their rules give, or that of
/// the first name whose rule refuses. In such values lies the one solution of the equations of motion of each choice within the brackets.
pub fn answer_law()
    ensures one { (tree : Tree) (row : Row) → AreBodies tree.bodies → HasOneAnswer tree row }
    ensures means { (tree : Tree) (row : Row) → AreBodies tree.bodies → AnswerMeans tree row }
    ensures encloses { (tree : Tree) (row : Row) → AreBodies tree.bodies → AnswerEncloses tree row }
{}
