//! Factors of a packed table of intervals on the paths of a tree, and the solution of equations by them, over a work (Featherstone, Rigid Body Dynamics
//! Algorithms, chapter 6).
#![tactic(auto)]

mod factors;
pub mod laws;
mod solution;

pub use factors::factor;
pub use solution::{divide, reduce, solve, substitute};
