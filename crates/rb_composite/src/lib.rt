//! The composite rigid body algorithm over exact fractions: the composite inertias of the bodies of a
//! tree give the mass table of its equations of motion. No code holds these numbers; the definitions
//! stand in `specs/`, and each law about them is the contract of a function that does nothing.
#![tactic(auto)]

mod laws;

pub use laws::{composite_law, pair_law};
