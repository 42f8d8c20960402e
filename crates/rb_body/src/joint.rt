ghost use Rattle.std.specs.Prelude.{◌≡◌, ◌↔◌, List, IfOk, IsErrOf};
ghost use Rattle.rb_num.specs.Interval.{Interval};
ghost use Rattle.rb_spatial.specs.Vectors.{vector_of};
ghost use Rattle.rb_trig.specs.Axis.{MakesUnit};
ghost use Rattle.rb_joint.specs.Frames.{AreAngles};
ghost use Rattle.rb_body.specs.Raw.{HasAxis};
ghost use Rattle.rb_body.specs.Joint.{axis_by, plain_by, hinge_model as hinge_model_of, hinge_by, slider_by, joint_in as joint_in_frame, joint_by, IsZeroAxis, HasNumbers, EnclosesJoint};

use crate::faults::BodyFault;
use crate::raw::JointRaw;
use crate::vectors::vector;
use rb_joint::{AnyJoint, Continuous, Fixed, Free, Planar, Prismatic, Revolute, frame_of};
use rb_num::Iv;
use rb_spatial::{Frame, Vec3, multiple};
use rb_trig::unit_scale;
use rb_urdf::UrdfKind;

// The factor of the axis, and the axis taken times it.
#[tactic(auto, unfolding(crate::specs::Joint::axis_by))]
fn unit_axis(axis: &[Iv; 3]) -> Result<(Iv, Vec3), BodyFault>
    ensures exact { result ≡ axis_by (vector_of axis.now) }
    ensures unit { IfOk result (λ r. MakesUnit (vector_of axis.now).x (vector_of axis.now).y (vector_of axis.now).z r.0) }
{
    let v = vector(axis);
    let factor = unit_scale(v.x(), v.y(), v.z())?;
    let unit = multiple(factor, &v)?;
    Ok((factor, unit))
}

// A joint without an axis, of this model.
#[tactic(auto, unfolding(crate::specs::Joint::plain_by))]
fn plain(kind: UrdfKind, joint: AnyJoint, xyz: [Iv; 3], rpy: [Iv; 3]) -> (AnyJoint, JointRaw)
    requires { ¬ HasAxis kind }
    ensures exact { result ≡ plain_by kind joint xyz rpy }
    ensures numbers { (axis : List Interval) → HasNumbers kind xyz rpy axis result.1 }
{
    let raw = JointRaw {
        kind,
        xyz,
        rpy,
        axis: [Iv::ZERO, Iv::ZERO, Iv::ZERO],
        factor: Iv::ZERO,
    };
    (joint, raw)
}

// The model of a hinge about this axis.
#[tactic(auto, unfolding(crate::specs::Joint::hinge_model))]
fn hinge_model(kind: UrdfKind, frame: Frame, unit: Vec3) -> Result<AnyJoint, BodyFault>
    ensures { result ≡ hinge_model_of kind frame unit }
{
    if kind == UrdfKind::Continuous {
        Ok(AnyJoint::Continuous(Continuous::new(frame, unit)?))
    } else {
        Ok(AnyJoint::Revolute(Revolute::new(frame, unit)?))
    }
}

#[tactic(auto, unfolding(crate::specs::Joint::hinge_by))]
fn hinge(
    kind: UrdfKind,
    frame: Frame,
    xyz: [Iv; 3],
    rpy: [Iv; 3],
    axis: [Iv; 3],
) -> Result<(AnyJoint, JointRaw), BodyFault>
    requires { HasAxis kind }
    ensures exact { result ≡ hinge_by kind frame xyz rpy axis }
    ensures numbers { IfOk result (λ r. HasNumbers kind xyz rpy axis r.1) }
{
    let (factor, unit) = unit_axis(&axis)?;
    let joint = hinge_model(kind, frame, unit)?;
    let raw = JointRaw {
        kind,
        xyz,
        rpy,
        axis,
        factor,
    };
    Ok((joint, raw))
}

#[tactic(auto, unfolding(crate::specs::Joint::slider_by))]
fn slider(
    frame: Frame,
    xyz: [Iv; 3],
    rpy: [Iv; 3],
    axis: [Iv; 3],
) -> Result<(AnyJoint, JointRaw), BodyFault>
    ensures exact { result ≡ slider_by frame xyz rpy axis }
    ensures numbers { IfOk result (λ r. HasNumbers UrdfKind.Prismatic xyz rpy axis r.1) }
{
    let (factor, unit) = unit_axis(&axis)?;
    let raw = JointRaw {
        kind: UrdfKind::Prismatic,
        xyz,
        rpy,
        axis,
        factor,
    };
    Ok((AnyJoint::Prismatic(Prismatic::new(frame, unit)), raw))
}

// The joint in its frame.
fn joint_in(
    kind: UrdfKind,
    frame: Frame,
    xyz: [Iv; 3],
    rpy: [Iv; 3],
    axis: [Iv; 3],
) -> Result<(AnyJoint, JointRaw), BodyFault>
    ensures exact { result ≡ joint_in_frame kind frame xyz rpy axis }
    ensures numbers { IfOk result (λ r. HasNumbers kind xyz rpy axis r.1) }
{
    match kind {
        UrdfKind::Fixed => Ok(plain(kind, AnyJoint::Fixed(Fixed::new(frame)), xyz, rpy)),
        UrdfKind::Revolute | UrdfKind::Continuous => hinge(kind, frame, xyz, rpy, axis),
        UrdfKind::Prismatic => slider(frame, xyz, rpy, axis),
        UrdfKind::Planar => Ok(plain(kind, AnyJoint::Planar(Planar::new(frame)), xyz, rpy)),
        UrdfKind::Floating => Ok(plain(kind, AnyJoint::Free(Free::new(frame)), xyz, rpy)),
    }
}

/// The model of a joint of this kind, from the origin `xyz` in metres and the angles `rpy` in radians
/// of its frame and from its axis, with the numbers that it is made of. The axis is first taken times
/// the factor that makes it one unit long; fixed, planar and free joints have none (URDF `joint`; Featherstone,
/// chapter 4).
///
/// It is refused with `AngleRange` exactly where an end of an angle is larger in size than eight
/// radians, with `ZeroAxis` exactly where the frame is not refused and the axis, of which no square
/// of an end passes the limit, may be zero, and with `Size` where another step is refused.
#[tactic(auto, unfolding(crate::specs::Joint::joint_by))]
pub fn joint_of(
    kind: UrdfKind,
    xyz: [Iv; 3],
    rpy: [Iv; 3],
    axis: [Iv; 3],
) -> Result<(AnyJoint, JointRaw), BodyFault>
    ensures exact { result ≡ joint_by kind xyz rpy axis }
    ensures encloses { IfOk result (λ r. EnclosesJoint r.0 r.1) }
    ensures numbers { IfOk result (λ r. HasNumbers kind xyz rpy axis r.1) }
    ensures range { IsErrOf result BodyFault.AngleRange ↔ ¬ AreAngles (vector_of rpy) }
    ensures zero { IsErrOf result BodyFault.ZeroAxis ↔ IsZeroAxis kind (vector_of xyz) (vector_of rpy) (vector_of axis) }
{
    let frame = frame_of(&vector(&xyz), &vector(&rpy))?;
    joint_in(kind, frame, xyz, rpy, axis)
}
