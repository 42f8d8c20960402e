//! Robots of the Unified Robot Description Format: links, joints and mimics, from a list of tags.
#![tactic(auto)]

mod faults;
mod joint;
mod laws;
mod link;
mod mimic;
mod names;
mod numbers;
mod read;
mod robot;

pub use faults::{UrdfFault, UrdfFaultKind};
pub use laws::robots_by_profile;
pub use rb_num::Iv;
pub use rb_tags::{Tags, Text};
pub use read::read_urdf;
pub use robot::{Joints, Links, UrdfJoint, UrdfKind, UrdfLink, UrdfMimic, UrdfRobot};
