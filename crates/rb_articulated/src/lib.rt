//! The articulated-body algorithm over exact fractions: what it finds from the leaves to the root and
//! back is the one solution of the equations of forward dynamics. No code holds these numbers; the
//! definitions stand in `specs/`, and each law about them is the contract of a function that does
//! nothing.
#![tactic(auto)]

mod laws;

pub use laws::articulated_law;
