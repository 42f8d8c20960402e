//! Forward dynamics of a tree of rigid bodies in intervals: the articulated-body algorithm (Featherstone, Rigid Body Dynamics Algorithms, chapter 7).
#![tactic(auto)]

mod accelerations;
mod articulated;
pub mod laws;
mod row;
mod rules;

pub use row::aba;
