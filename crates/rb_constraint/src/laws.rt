// What files and constraints are to each other.
ghost use Rattle.rb_constraint.specs.Laws.{HasAnswer, HasOneAnswer, RowsFitRobot, HasChoice};

/// A file says constraints for a robot or has a fault, the first in the order of the refusals: exactly one list or one fault. The rows of the constraints
/// are between bodies of the robot.
pub fn file_law()
    ensures some { HasAnswer }
    ensures one { HasOneAnswer }
    ensures fit { RowsFitRobot }
{}

/// There is a number in each bracket of constraints.
pub fn choice_law()
    ensures { HasChoice }
{}
