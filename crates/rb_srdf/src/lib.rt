//! Groups, group states and virtual joints of the Semantic Robot Description Format, from a list of tags.
#![tactic(auto)]

mod components;
mod faults;
mod laws;
mod loops;
mod names;
mod parts;
mod reached;
mod read;
mod read_groups;
mod read_states;
mod read_virtuals;
mod rows;
mod srdf;
mod state_names;

pub use faults::{SrdfFault, SrdfFaultKind};
pub use laws::semantics_by_profile;
pub use rb_num::Iv;
pub use rb_tags::{RootKind, Tags, Text};
pub use read::read_srdf;
pub use srdf::{
    Group, GroupItem, GroupState, Groups, Items, JointNumbers, Numbers, Srdf, States, Values,
    Virtual, Virtuals,
};
