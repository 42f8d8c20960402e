//! What the answer of a row means, whatever its task.

ghost use Rattle.std.specs.Prelude.{List};
ghost use Rattle.rb_tree.specs.Robot.{Tree, AreBodies};
ghost use Rattle.rb_tree.specs.State.{Row};
ghost use Rattle.rb_constraint.specs.declared.constraints.Constraint.{Constraint};
ghost use Rattle.rb_constraint.specs.Constraints.{AreConstraints};
ghost use Rattle.rb_rows.specs.declared.task.Task.{Task};
ghost use Rattle.rb_run.specs.Answers.{AnswerMeans};
ghost use Rattle.rb_run.specs.Jobs.{Suits};

/// The values of the one answer enclose: for each choice within the brackets of the robot, the constraints and the row the equations of the task have exactly
/// one solution, and it lies in the values. A refusal is that of the first name whose rule refuses. For articulated bodies no joint of the robot follows
/// another.
pub fn answer_law()
    ensures means { (asked : Task) (tree : Tree) (cons : List Constraint) (row : Row) → Suits asked tree cons → AreBodies tree.bodies → AreConstraints cons → AnswerMeans asked tree cons row }
{
    rb_rnea::laws::answer_law();
    rb_mass::laws::answer_law();
    rb_mass::table_law();
    rb_contact::laws::answer_law();
    rb_contact::laws::contact_answer_law();
    rb_impact::laws::impact_answer_law();
    rb_aba::laws::answer_law();
}
