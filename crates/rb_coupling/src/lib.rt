//! The coupling of rows of constraints over the factors that a work holds, and the forces of the rows (Featherstone, Rigid Body Dynamics Algorithms, chapter
//! 8), in intervals.
#![tactic(auto)]

mod coupling;
mod eliminate;
mod forces;
pub mod laws;
mod rows;
mod sums;

pub use coupling::couple;
pub use forces::{add_row_forces, row_forces, row_sides};
