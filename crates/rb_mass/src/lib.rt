//! The mass table of a tree of rigid bodies in intervals: the composite rigid body algorithm (Featherstone, Rigid Body Dynamics Algorithms,
//! chapter 6).
#![tactic(auto)]

mod columns;
mod entries;
mod factors;
mod inertias;
pub mod laws;
mod masses;
mod meaning;
mod row;

pub use factors::{factor, solve};
pub use meaning::table_law;
pub use row::{composite, crba};
