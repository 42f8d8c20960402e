//! Trees of rigid bodies: the bodies of a robot in their order, with their joints, their inertias, their columns and the names of these; and
//! states, the numbers of one row.
#![tactic(auto)]

mod bearers;
mod bearing;
mod build;
mod columns;
mod faults;
mod groups;
mod grow;
pub mod laws;
mod names;
mod order;
mod parts;
mod places;
mod robot;
mod roots;
mod semantics;
mod sizes;
mod state;
mod states;

pub use faults::{TreeFault, TreeKind, WhichFile};
pub use names::{column_suffixes, entry_suffixes};
pub use places::place_all;
pub use rb_body::{AnyJoint, BodyInertia, JointRaw, LinkRaw, UrdfKind};
pub use rb_num::Iv;
pub use rb_spatial::Vec3;
pub use rb_tags::RootKind;
pub use rb_urdf::UrdfRobot;
pub use robot::{Body, Mimic, Robot};
pub use sizes::{MAX_COLUMNS, MAX_LINKS};
pub use state::{NoState, State};
