ghost use Rattle.rb_tree.specs.Laws.{HasOneOrder, IsBuiltOnce, HasOneFault, FaultExcludesRobot, RootStandsAtOrigin, ParentsFitShape, ColumnsFitShape, MimicsFitShape, HasChoiceInState, WorldHasNoColumn, BodyHasItsLast, BodyHasItsParents};
ghost use Rattle.rb_tree.specs.Robot.{Tree};
ghost use Rattle.rb_tree.specs.State.{Row};
ghost use Rattle.rb_tree.specs.Places.{PlacesHaveOneAnswer};

/// A robot has at most one order of bodies.
pub fn one_order_law()
    ensures { HasOneOrder }
{}

/// What a robot is built from gives at most one robot, or at most one fault, and not both.
pub fn one_answer_law()
    ensures robot { IsBuiltOnce }
    ensures fault { HasOneFault }
    ensures either { FaultExcludesRobot }
{}

/// The joint of a root is of the kind that is asked for, else fixed, and its frame is the identity.
pub fn root_law()
    ensures { RootStandsAtOrigin }
{}

/// The parents of a robot's bodies come first. Each of its columns is one of the joint of its body, and of no other. Where a joint follows
/// another, it may: both have one entry, and the other follows none.
pub fn shape_law()
    ensures parents { ParentsFitShape }
    ensures columns { ColumnsFitShape }
    ensures mimics { MimicsFitShape }
{}

/// A robot has a choice in each state: there are numbers in all brackets that meet the joint relation.
pub fn choice_law()
    ensures { HasChoiceInState }
{}

/// The nearest column upward of a body is its own last one, else that of its parent; the world has none.
pub fn nearest_column_law()
    ensures world { WorldHasNoColumn }
    ensures own { BodyHasItsLast }
    ensures parent { BodyHasItsParents }
{}

/// The entries and places of a robot in a row, or the refusal, are the same whatever a work held before.
pub fn places_law()
    ensures { (tree : Tree) (row : Row) → PlacesHaveOneAnswer tree row }
{}
