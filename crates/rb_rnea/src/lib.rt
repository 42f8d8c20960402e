//! Inverse dynamics of a tree of rigid bodies in intervals: the recursive Newton-Euler algorithm (Featherstone, Rigid Body Dynamics Algorithms,
//! chapter 5).
#![tactic(auto)]

mod accelerations;
mod forces;
pub mod laws;
mod rates;
mod row;
mod speeds;
mod torques;

pub use accelerations::{against_gravity, moved_along};
pub use row::{bias, rnea};
pub use speeds::sweep_speeds;
