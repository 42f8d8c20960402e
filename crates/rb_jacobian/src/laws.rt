//! The Jacobian of rows of constraints, and the bordered equations that it gives.

ghost use Rattle.rb_jacobian.specs.Laws.{VectorIsUnitForce, ValueIsAcceleration, JacobianGivesSpeeds, JacobianGivesAccelerations, JacobianGivesTorques, HasJacobian, JacobianIsOne};
ghost use Rattle.rb_jacobian.specs.Laws.{HasTurns, TurnsAreOne, ContactIsBordered, ContactFromBordered, ContactHasOneSolution};
ghost use Rattle.rb_jacobian.specs.Impact.{ImpactIsBordered, ImpactFromBordered, ImpactHasOneSolution};

/// The vector of a row is its force at the size 1, and the rule of a row's value gives the
/// acceleration of its point, or that of its turn.
pub fn row_law()
    ensures vector { VectorIsUnitForce }
    ensures value { ValueIsAcceleration }
{}

/// At any rates of the columns the difference of speeds that a row holds is its row of the Jacobian
/// times the rates, and its difference of accelerations is that times the accelerations of the joints
/// and a bias, which is the same difference where no joint accelerates. The forces of the rows take
/// from the torques what the transpose of the Jacobian makes of them. Every tree and all rows have one
/// Jacobian.
pub fn jacobian_law()
    ensures speeds { JacobianGivesSpeeds }
    ensures accelerations { JacobianGivesAccelerations }
    ensures torques { JacobianGivesTorques }
    ensures exists { HasJacobian }
    ensures one { JacobianIsOne }
{}

/// There are turns of the bodies to the world, and one of each. A tree moves under the forces of the
/// rows exactly where its accelerations and these forces solve the mass table bordered by the
/// Jacobian; so it moves in exactly one way where these equations have one solution.
pub fn contact_law()
    ensures turns { HasTurns }
    ensures one_turn { TurnsAreOne }
    ensures solves { ContactIsBordered }
    ensures back { ContactFromBordered }
    ensures one { ContactHasOneSolution }
{}

/// The rows stop a tree, or throw it back, exactly where the changes of the speeds and the impulses
/// solve the mass table bordered by the Jacobian, in which the rows do not give way; so an impact ends
/// in exactly one way where these equations have one solution.
pub fn impact_law()
    ensures solves { ImpactIsBordered }
    ensures back { ImpactFromBordered }
    ensures one { ImpactHasOneSolution }
{}
