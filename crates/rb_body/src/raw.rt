ghost use Rattle.rb_flat.specs.Choice.{LinkOrdered, JointOrdered};

use crate::vectors::{six_in_order, three_in_order};
use rb_num::Iv;
use rb_urdf::UrdfKind;

/// The brackets of a link (URDF `inertial`): mass in kilograms, centre of mass in metres, roll,
/// pitch and yaw of the axes of its inertia in radians, and its inertia about the centre along these
/// axes in kg m^2, in the order ixx, ixy, ixz, iyy, iyz, izz.
#[derive(Clone, Copy, Debug, PartialEq, Eq)]
pub struct LinkRaw {
    pub mass: Iv,
    pub com: [Iv; 3],
    pub rpy: [Iv; 3],
    pub six: [Iv; 6],
}

/// The brackets of a joint (URDF `joint`): its kind, the origin of its frame in metres, roll, pitch
/// and yaw of its frame in radians, its axis, and the factor that makes the axis one unit long. The
/// axis and the factor are zero at kinds that have none: fixed, planar and floating.
#[derive(Clone, Copy, Debug, PartialEq, Eq)]
pub struct JointRaw {
    pub kind: UrdfKind,
    pub xyz: [Iv; 3],
    pub rpy: [Iv; 3],
    pub axis: [Iv; 3],
    pub factor: Iv,
}

impl LinkRaw {
    ghost use Rattle.rb_body.specs.Raw.{link_brackets};

    /// The ends of each bracket are in order, as those of each interval are.
    pub fn in_order(&self)
        ensures { LinkOrdered (link_brackets self.now) }
    {
        let _bound = self.mass.lo();
        three_in_order(&self.com);
        three_in_order(&self.rpy);
        six_in_order(&self.six);
    }
}

impl JointRaw {
    ghost use Rattle.rb_body.specs.Raw.{joint_brackets};

    /// The ends of each bracket are in order, as those of each interval are.
    pub fn in_order(&self)
        ensures { JointOrdered (joint_brackets self.now) }
    {
        three_in_order(&self.xyz);
        three_in_order(&self.rpy);
        three_in_order(&self.axis);
        let _bound = self.factor.lo();
    }
}
