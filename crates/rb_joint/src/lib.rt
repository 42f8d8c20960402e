//! Joints: the turns of angles, axes and quaternions, the places that they give, and the models of
//! joints with their places and columns.
#![tactic(auto)]

mod any;
mod columns;
mod exact;
mod faults;
mod frames;
pub mod laws;
mod level;
mod model;
mod models;
mod places;
mod turning;
mod turns;

pub use any::AnyJoint;
pub use faults::JointFault;
pub use frames::frame_of;
pub use model::JointModel;
pub use models::{Continuous, Fixed, Free, Planar, Prismatic, Revolute};
pub use places::{outside, place_of, place_shifted};
pub use turns::{Quaternion, SineCosine, axis_products, rotation, turn_about, turn_level, turn_of};
