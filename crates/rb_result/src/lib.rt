//! Steps that answer a value or a fault: how they follow one another, and what it is for a function
//! to give what reading gives. The definitions stand in `specs/`, for the contracts of the crates
//! above; no code stands here.
#![tactic(auto)]

mod laws;

pub use laws::steps_law;
