ghost use Rattle.std.specs.Prelude.{◌≡◌, ◌≢◌, []};
ghost use Rattle.std.specs.Str.{IsUtf8};
ghost use Rattle.rb_urdf.specs.Robot.{IsRobot};

use rb_num::Iv;
use rb_tags::Text;
use std::marker::Model;

/// The kind of a joint (URDF `type`).
#[derive(Clone, Copy, Debug, PartialEq, Eq)]
pub enum UrdfKind {
    Fixed,
    Revolute,
    Prismatic,
    Continuous,
    Planar,
    Floating,
}

/// A link (URDF `link`): its name, the place of its `<` in bytes of the file, its mass in kilograms, its centre of mass in metres, the
/// roll, pitch and yaw of the axes of its inertia in radians, and ixx, ixy, ixz, iyy, iyz, izz in kg m².
#[derive(Debug, Drop)]
pub struct UrdfLink {
    pub name: Text,
    pub place: u64,
    pub mass: Iv,
    pub com: [Iv; 3],
    pub rpy: [Iv; 3],
    pub six: [Iv; 6],
}

/// That a joint follows another (URDF `mimic`): the number of that joint, from 0 in file order, and the multiplier and the offset.
#[derive(Clone, Copy, Debug, PartialEq, Eq)]
pub struct UrdfMimic {
    pub master: u32,
    pub multiplier: Iv,
    pub offset: Iv,
}

/// A joint (URDF `joint`): its name, the place of its `<` in bytes of the file, its kind, the numbers of its parent and child links from 0
/// in file order, its origin in metres and its roll, pitch and yaw in radians in the frame of its parent, its axis in its own frame, and
/// the joint that it follows. The axis of a fixed or floating joint is zero.
#[derive(Debug, Drop)]
pub struct UrdfJoint {
    pub name: Text,
    pub place: u64,
    pub kind: UrdfKind,
    pub parent: u32,
    pub child: u32,
    pub xyz: [Iv; 3],
    pub rpy: [Iv; 3],
    pub axis: [Iv; 3],
    pub mimic: Option<UrdfMimic>,
}

/// The links of a robot, in file order.
#[derive(Debug, Drop)]
pub struct Links {
    pub(crate) links: Vec<UrdfLink>,
}

impl Model for Links {
    ghost use Rattle.std.specs.Prelude.{List};
    ghost use Rattle.rb_urdf.specs.declared.robot.UrdfLink.{UrdfLink};

    ghost Value = { List UrdfLink };

    ghost view = { λ l. l.links.items };
}

impl Links {
    /// The links.
    pub fn as_slice(&self) -> &[UrdfLink]
        ensures { result.now ≡ self.now }
    {
        self.links.as_slice()
    }
}

/// The joints of a robot, in file order.
#[derive(Debug, Drop)]
pub struct Joints {
    pub(crate) joints: Vec<UrdfJoint>,
}

impl Model for Joints {
    ghost use Rattle.std.specs.Prelude.{List};
    ghost use Rattle.rb_urdf.specs.declared.robot.UrdfJoint.{UrdfJoint};

    ghost Value = { List UrdfJoint };

    ghost view = { λ l. l.joints.items };
}

impl Joints {
    /// The joints.
    pub fn as_slice(&self) -> &[UrdfJoint]
        ensures { result.now ≡ self.now }
    {
        self.joints.as_slice()
    }
}

/// A robot: its name, the place of its `<` in bytes of the file, its links and its joints.
///
/// `read_urdf` alone makes one, so it keeps what that call asks for: names are given and differ, no mass may be negative, and joints and
/// mimics name links and joints that are there.
#[derive(Debug, Drop)]
pub struct UrdfRobot {
    pub(crate) name: Text,
    pub(crate) place: u64,
    pub(crate) links: Links,
    pub(crate) joints: Joints,
}

impl Model for UrdfRobot {
    ghost use Rattle.std.specs.Prelude.{◌≢◌, []};
    ghost use Rattle.rb_urdf.specs.Robot.{Robot, IsRobot};

    ghost Value = { Robot };

    ghost view = { λ r. record { name = r.name; place = r.place; links = r.links; joints = r.joints } };

    ghost invariant = { λ r. (r.name ≢ []) × IsRobot r.links r.joints };
}

impl UrdfRobot {
    /// The robot's name.
    pub fn name(&self) -> &str
        ensures same { result.now ≡ self.now.name }
        ensures kept { self.now.name ≢ [] }
        ensures utf8 { IsUtf8 self.now.name }
    {
        self.name.as_str()
    }

    /// The place of the robot's `<` in bytes of the file.
    pub fn place(&self) -> u64
        ensures { result ≡ self.now.place }
    {
        self.place
    }

    /// The links, in file order.
    pub fn links(&self) -> &Links
        ensures { result.now ≡ self.now.links }
    {
        &self.links
    }

    /// The joints, in file order.
    pub fn joints(&self) -> &Joints
        ensures same { result.now ≡ self.now.joints }
        ensures kept { IsRobot self.now.links self.now.joints }
    {
        &self.joints
    }
}
