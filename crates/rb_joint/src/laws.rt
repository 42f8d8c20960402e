//! What the rules of joints mean at fractions.

ghost use Rattle.rb_joint.specs.Laws.{RotationIsProduct, TurnIsAboutAxis, TurnIsAboutQuaternion, PlaceIsProduct, ShiftedPlaceTurnsNot};

/// Each turn is its product of tables.
pub fn turns()
    ensures rotation { RotationIsProduct }
    ensures about { TurnIsAboutAxis }
    ensures quaternion { TurnIsAboutQuaternion }
{}

/// A place comes from the frame's rotation times the turn, and from the shifted origin.
pub fn places()
    ensures turned { PlaceIsProduct }
    ensures shifted { ShiftedPlaceTurnsNot }
{}
