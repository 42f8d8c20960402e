//! What the factors of the mass table say of forward dynamics, and what the answer of a row is, whatever a work held before.

ghost use Rattle.rb_tree.specs.Robot.{Tree, AreBodies};
ghost use Rattle.std.specs.Prelude.{◌≤◌};
ghost use Rattle.rb_num.specs.Interval.{Interval};
ghost use Rattle.rb_flat.specs.Contact.{Constraints, RowsFit};
ghost use Rattle.rb_tree.specs.Shape.{shape_of};
ghost use Rattle.rb_tree.specs.State.{Row};
ghost use Rattle.rb_contact.specs.Laws.{FactorsGiveOneSolution, FactorsGiveAccelerations};
ghost use Rattle.rb_contact.specs.Forward.{HasOneForward, ForwardMeans, ForwardEncloses};
ghost use Rattle.rb_contact.specs.Contact.{HasOneContact, ContactMeans, ContactEncloses};

/// Where no pivot of the mass table is zero, the equations of motion have exactly one solution under given torques. The accelerations of its joints are
/// what the factors find for the torques less the bias, which is the torques that need no accelerations.
pub fn forward_law()
    ensures one { FactorsGiveOneSolution }
    ensures accelerations { FactorsGiveAccelerations }
{}

/// The accelerations of a robot in a row, or the refusal, are the same whatever a work held before: those of values that are what their rules give, or that
/// of the first part that is refused. In such values lies the one solution of the equations of motion of each choice within the brackets.
pub fn answer_law()
    ensures one { (tree : Tree) (row : Row) → AreBodies tree.bodies → HasOneForward tree row }
    ensures means { (tree : Tree) (row : Row) → AreBodies tree.bodies → ForwardMeans tree row }
    ensures encloses { (tree : Tree) (row : Row) → AreBodies tree.bodies → ForwardEncloses tree row }
{}

/// Under rows of constraints the accelerations of a robot in a row and the forces of the rows, or the refusal, are the same whatever a work held before:
/// those of values that are what their rules give, or that of the first part that is refused. In such values lies the one solution of the equations of
/// motion, with those of the rows, of each choice within the brackets.
pub fn contact_answer_law()
    ensures one { (tree : Tree) (row : Row) (k : Constraints Interval) → AreBodies tree.bodies → RowsFit (shape_of tree) k → HasOneContact tree row k }
    ensures means { (tree : Tree) (row : Row) (k : Constraints Interval) → AreBodies tree.bodies → RowsFit (shape_of tree) k → k.rows ≤ 64 → ContactMeans tree row k }
    ensures encloses { (tree : Tree) (row : Row) (k : Constraints Interval) → AreBodies tree.bodies → RowsFit (shape_of tree) k → ContactEncloses tree row k }
{}
