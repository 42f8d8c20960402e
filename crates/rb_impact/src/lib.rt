//! The speeds of a tree of rigid bodies after an impact on rows of constraints, with restitution, in intervals (Featherstone, Rigid Body Dynamics
//! Algorithms, chapter 11).
#![tactic(auto)]

mod impacts;
pub mod laws;
mod met;
mod pushes;
mod sides;
mod speeds;

pub use impacts::impulse;
