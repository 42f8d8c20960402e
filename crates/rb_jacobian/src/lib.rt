//! Rows of constraints on a tree over exact fractions: the Jacobian of the rows gives their speeds,
//! their accelerations and what their forces do to the torques, and borders the mass table, for forces
//! and for impulses. No code holds these numbers; the definitions stand in `specs/`, and each law
//! about them is the contract of a function that does nothing.
#![tactic(auto)]

mod laws;

pub use laws::{contact_law, impact_law, jacobian_law, row_law};
