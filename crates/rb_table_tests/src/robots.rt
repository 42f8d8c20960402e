//! The texts of small robots, and the robots that they make.
use rb_tags::{RootKind, read_tags};
use rb_tree::Robot;
use rb_urdf::{UrdfRobot, read_urdf};
use std::alloc::Global;

// The robot file of a text.
pub(crate) fn urdf_in(alloc: Global, text: &str) -> Option<UrdfRobot> {
    let Ok(tags) = read_tags(alloc, text.as_bytes()) else {
        return None;
    };
    read_urdf(alloc, &tags).ok()
}

// The robot of a file with such a root; nothing if the file holds none.
pub(crate) fn robot_on(alloc: Global, text: &str, root: Option<RootKind>) -> Option<Robot> {
    let Some(urdf) = urdf_in(alloc, text) else {
        return None;
    };
    Robot::build(alloc, &urdf, None, root).ok()
}

// Two turning joints.
pub(crate) const ARM: &str =
    "<robot name='arm'><link name='base'/><link name='upper'/><link name='lower'/>\
<joint name='lift' type='revolute'><parent link='base'/><child link='upper'/><axis xyz='0 0 1'/>\
<limit lower='-1' upper='1' effort='1' velocity='1'/></joint>\
<joint name='turn' type='continuous'><parent link='upper'/><child link='lower'/><axis xyz='0 0 1'/></joint></robot>";

// The second follows the first.
pub(crate) const FOLLOWER: &str =
    "<robot name='arm'><link name='base'/><link name='upper'/><link name='lower'/>\
<joint name='lift' type='revolute'><parent link='base'/><child link='upper'/><axis xyz='0 0 1'/>\
<limit lower='-1' upper='1' effort='1' velocity='1'/></joint>\
<joint name='turn' type='revolute'><parent link='upper'/><child link='lower'/><axis xyz='0 0 1'/>\
<limit lower='-1' upper='1' effort='1' velocity='1'/><mimic joint='lift'/></joint></robot>";

// A link alone.
pub(crate) const BLOCK: &str = "<robot name='block'><link name='block'/></robot>";

// A car of 2 kg that is lifted off a fixed base.
pub(crate) const LIFT: &str =
    "<robot name='lift'><link name='base'/><link name='car'><inertial><mass value='2'/></inertial></link><joint name='lift' type='prismatic'><parent link='base'/><child link='car'/><axis xyz='0 0 1'/></joint></robot>";
