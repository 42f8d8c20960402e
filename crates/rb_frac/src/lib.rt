//! Exact fractions, which no code holds: what they are and how they are added, multiplied, divided
//! and compared stands in `specs/`, for the contracts of the crates above, and each law about them is
//! the contract of a function that does nothing.
#![tactic(auto)]

pub mod laws;

pub use laws::{field_law, keeps_same_law, order_law, same_law, solvable_law};
