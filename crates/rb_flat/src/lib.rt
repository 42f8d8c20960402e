//! The equations of joints, bodies and trees over exact fractions, which no code holds: from a choice
//! of numbers to the places, the columns and the inertias that it gives, and to the motions and forces
//! of the tree. They stand in `specs/`, for the contracts of the crates above, and each law about them
//! is the contract of a function that does nothing.
#![tactic(auto)]

mod laws;

pub use laws::{
    choice_law, dynamics_law, inertia_law, joint_law, mechanics_law, row_law, turn_law,
};
