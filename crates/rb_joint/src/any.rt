ghost use Rattle.std.specs.Prelude.{◌≡◌, ◌<◌, ◌≤◌, ◌↔◌, length, IfOk, IsErrOf};

use crate::faults::JointFault;
use crate::model::JointModel;
use crate::models::{Continuous, Fixed, Free, Planar, Prismatic, Revolute};
use rb_num::Iv;
use rb_spatial::{Motion, Place};

/// A joint of one of the models, which answers as this model does.
#[derive(Clone, Copy, Debug, PartialEq, Eq)]
pub enum AnyJoint {
    Fixed(Fixed),
    Revolute(Revolute),
    Continuous(Continuous),
    Prismatic(Prismatic),
    Planar(Planar),
    Free(Free),
}

impl AnyJoint {
    ghost use Rattle.rb_flat.specs.Joint.{entry_count, column_count};
    ghost use Rattle.rb_joint.specs.Model.{EnclosesPlace, EnclosesColumn};
    ghost use Rattle.rb_joint.specs.Any.{kind_of, IsOfModel, PassesRange, IsNotUnit, any_place, any_column};

    /// How many entries the position has: at most seven.
    pub fn nq(&self) -> usize
        ensures count { result ≡ entry_count (kind_of self.now) }
        ensures bound { result ≤ 7 }
    {
        match self {
            AnyJoint::Fixed(_) => Fixed::NQ,
            AnyJoint::Revolute(_) => Revolute::NQ,
            AnyJoint::Continuous(_) => Continuous::NQ,
            AnyJoint::Prismatic(_) => Prismatic::NQ,
            AnyJoint::Planar(_) => Planar::NQ,
            AnyJoint::Free(_) => Free::NQ,
        }
    }

    /// How many columns the joint has: at most six.
    pub fn nv(&self) -> usize
        ensures count { result ≡ column_count (kind_of self.now) }
        ensures bound { result ≤ 6 }
    {
        match self {
            AnyJoint::Fixed(_) => Fixed::NV,
            AnyJoint::Revolute(_) => Revolute::NV,
            AnyJoint::Continuous(_) => Continuous::NV,
            AnyJoint::Prismatic(_) => Prismatic::NV,
            AnyJoint::Planar(_) => Planar::NV,
            AnyJoint::Free(_) => Free::NV,
        }
    }

    /// The place of the body behind the joint, for the entries `q`, which encloses that of the joint
    /// relation for each choice.
    ///
    /// It is refused with `Range` exactly where the angle of a revolute joint is larger in size than
    /// eight radians, and with `NotUnit` exactly where the squared length of the cosine and sine of a
    /// continuous or planar joint, or of the quaternion of a free one, is within the limit and shares
    /// no number with 0.999..1.001. Otherwise it is refused with `Size` exactly where a step is.
    #[tactic(auto, unfolding(crate::specs::Any::any_place))]
    pub fn place(&self, q: &[Iv]) -> Result<Place, JointFault>
        requires { length q.now ≡ entry_count (kind_of self.now) }
        ensures exact { result ≡ any_place self.now q.now }
        ensures encloses { IfOk result (EnclosesPlace (kind_of self.now) (IsOfModel self.now) q.now) }
        ensures range { IsErrOf result JointFault.Range ↔ PassesRange self.now q.now }
        ensures not_unit { IsErrOf result JointFault.NotUnit ↔ IsNotUnit self.now q.now }
    {
        match self {
            AnyJoint::Fixed(joint) => joint.place(q),
            AnyJoint::Revolute(joint) => joint.place(q),
            AnyJoint::Continuous(joint) => joint.place(q),
            AnyJoint::Prismatic(joint) => joint.place(q),
            AnyJoint::Planar(joint) => joint.place(q),
            AnyJoint::Free(joint) => joint.place(q),
        }
    }

    /// Column `k`, from 0, linear part first, which encloses that of the joint relation for each
    /// choice.
    #[tactic(auto, unfolding(crate::specs::Any::any_column))]
    pub fn column(&self, k: usize) -> Motion
        requires { k < column_count (kind_of self.now) }
        ensures exact { result ≡ any_column self.now k }
        ensures encloses { EnclosesColumn (kind_of self.now) (IsOfModel self.now) k result }
    {
        match self {
            AnyJoint::Fixed(joint) => joint.column(k),
            AnyJoint::Revolute(joint) => joint.column(k),
            AnyJoint::Continuous(joint) => joint.column(k),
            AnyJoint::Prismatic(joint) => joint.column(k),
            AnyJoint::Planar(joint) => joint.column(k),
            AnyJoint::Free(joint) => joint.column(k),
        }
    }
}
