//! What is known of turns, joints and inertias, that there is a choice, and what is known of the
//! equations of a tree.

ghost use Rattle.rb_frac.specs.Frac.{Frac};
ghost use Rattle.rb_frac.specs.Spatial.{SineCosine};
ghost use Rattle.rb_flat.specs.Choice.{HasChoice, WiderKeepsChoice};
ghost use Rattle.rb_flat.specs.Joint.{JointChoice};
ghost use Rattle.rb_flat.specs.Rates.{ColumnsAreRates, AccelerationsAreRates};
ghost use Rattle.rb_flat.specs.TreeLaws.{InverseHasOneSolution, HasMassTable, MassTableIsSymmetric, TorqueIsLinear, ForwardHasOneSolution};
ghost use Rattle.rb_flat.specs.TreeLaws.{VirtualWork, TorqueIsVirtualPower, RestNeedsWeight, RowsHavePower, PointAccelerationIsRate, ImpulseIsForceAtRest};
ghost use Rattle.rb_flat.specs.Laws.{TurnKeepsAxis, QuaternionKeepsVector, TurnsAboutCoordinates, RollPitchYawInTurn, PointsInTurn, ZeroHasOnePair, NeutralFits, FixedIsUnmoved, NeutralIsUnmoved, ContinuousIsRevolute, PlanarIsFree, FreeMovesAll, InertiaAboutAxis, CongruentIsSymmetric, ParallelAxesIsSquare};

/// A turn leaves its axis, and about a unit vector it is the turn about that coordinate axis. Roll
/// turns first, then pitch and then yaw; the joint turns and shifts a point of the body first, and
/// then its frame does.
pub fn turn_law()
    ensures axis { TurnKeepsAxis }
    ensures quaternion { QuaternionKeepsVector }
    ensures coordinates { (t : SineCosine Frac) → TurnsAboutCoordinates t }
    ensures angles { RollPitchYawInTurn }
    ensures points { PointsInTurn }
{}

/// The angle zero has one sine and one cosine alone, 0 and 1. Each kind of joint can rest, and a joint
/// that is fixed or at rest leaves its body in the joint's frame. A continuous joint is the revolute
/// one of its angle, a planar joint is a free one with two shifts and the turn about z, and the
/// columns of a free joint are the unit motions, linear first. The columns of each joint are the
/// rates of its turn and its shift as it starts from rest.
pub fn joint_law()
    ensures zero { ZeroHasOnePair }
    ensures entries { NeutralFits }
    ensures fixed { FixedIsUnmoved }
    ensures neutral { NeutralIsUnmoved }
    ensures continuous { (c : JointChoice) → ContinuousIsRevolute c }
    ensures planar { (c : JointChoice) → PlanarIsFree c }
    ensures free { FreeMovesAll }
    ensures rates { ColumnsAreRates }
{}

/// The inertia of a body about an axis is that of the six numbers in their own frame, and the mass
/// times the square of the centre's distance (Steiner). A turned inertia is symmetric, and what the
/// distance of the centre adds to it is, but for the sign, the mass times the square of the table of
/// the cross product with the centre.
pub fn inertia_law()
    ensures axis { InertiaAboutAxis }
    ensures symmetric { CongruentIsSymmetric }
    ensures parallel { ParallelAxesIsSquare }
{}

/// There is a choice for every robot and state whose brackets are in order, where each joint that
/// follows another may. It is a choice for each wider state too.
pub fn choice_law()
    ensures exists { HasChoice }
    ensures wider { WiderKeepsChoice }
{}

/// The equations of motion of a tree have exactly one solution where the accelerations of the joints
/// are given, whatever the numbers and the forces from outside: motions are determined from the world
/// down, and forces from the last body up. There is a mass table, which is symmetric, and the torques
/// are the bias, which needs no accelerations of the joints, and the table times these accelerations.
/// So where the torques are given there is exactly one solution too, if the elimination of the table
/// meets no zero pivot.
pub fn dynamics_law()
    ensures inverse { InverseHasOneSolution }
    ensures table { HasMassTable }
    ensures symmetric { MassTableIsSymmetric }
    ensures linear { TorqueIsLinear }
    ensures forward { ForwardHasOneSolution }
{}

/// The equations of motion say what mechanics says elsewhere. The acceleration of a body is the rate
/// of its speed, as its joint moves its place. A body at rest needs what bears its weight at its
/// centre. Torques have the power of the joints' forces, with joints that follow others (virtual
/// work), and that of what the bodies need and nothing from outside gives (d'Alembert's principle).
pub fn mechanics_law()
    ensures rates { AccelerationsAreRates }
    ensures weight { RestNeedsWeight }
    ensures work { VirtualWork }
    ensures alembert { TorqueIsVirtualPower }
{}

/// The forces of rows of constraints have the power of each row's force at the difference of speeds
/// that it holds. The acceleration of a point is the rate of its speed in the world. The impulse that
/// changes a body's speed is the force that it needs for such an acceleration from rest.
pub fn row_law()
    ensures power { RowsHavePower }
    ensures point { PointAccelerationIsRate }
    ensures impulse { ImpulseIsForceAtRest }
{}
