//! What the answer of an impact is, whatever a work held before.

ghost use Rattle.std.specs.Prelude.{◌≤◌};
ghost use Rattle.rb_num.specs.Interval.{Interval};
ghost use Rattle.rb_flat.specs.Contact.{Constraints, RowsFit};
ghost use Rattle.rb_tree.specs.Robot.{Tree, AreBodies};
ghost use Rattle.rb_tree.specs.Shape.{shape_of};
ghost use Rattle.rb_tree.specs.State.{Row};
ghost use Rattle.rb_impact.specs.Impact.{HasOneImpact, ImpactMeans, ImpactEncloses};

/// The speeds of a robot in a row after an impact on rows of constraints and the impulses of the rows, or the refusal, are the same whatever a work held
/// before: those of values that are what their rules give, or that of the first part that is refused. In such values lies the one solution of the equations
/// of an impact of each choice within the brackets.
pub fn impact_answer_law()
    ensures one { (tree : Tree) (row : Row) (k : Constraints Interval) → AreBodies tree.bodies → RowsFit (shape_of tree) k → HasOneImpact tree row k }
    ensures means { (tree : Tree) (row : Row) (k : Constraints Interval) → AreBodies tree.bodies → RowsFit (shape_of tree) k → k.rows ≤ 64 → ImpactMeans tree row k }
    ensures encloses { (tree : Tree) (row : Row) (k : Constraints Interval) → AreBodies tree.bodies → RowsFit (shape_of tree) k → ImpactEncloses tree row k }
{}
