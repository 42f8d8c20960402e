//! Equations of a table with factors that rows of constraints border, and their solution by the coupling of the rows, which no code here computes. They are
//! defined in `specs/` over any numbers, and each law about them, over exact fractions, is the contract of a function that does nothing. The source is Featherstone, Rigid Body Dynamics Algorithms, chapter 8.
#![tactic(auto)]

mod laws;

pub use laws::{bordered_law, coupling_law, existence_law};
