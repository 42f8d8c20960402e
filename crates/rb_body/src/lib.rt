//! The constants of a body: the inertia that a link gives it, about the body's own origin, and the
//! model of the joint that bears it.
#![tactic(auto)]

mod faults;
mod inertia;
mod joint;
pub mod laws;
mod raw;
mod vectors;

pub use faults::BodyFault;
pub use inertia::inertia_of;
pub use joint::joint_of;
pub use raw::{JointRaw, LinkRaw};
pub use rb_joint::AnyJoint;
pub use rb_spatial::BodyInertia;
pub use rb_urdf::UrdfKind;
