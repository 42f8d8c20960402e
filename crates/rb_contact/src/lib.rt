//! Forward dynamics of a tree of rigid bodies in intervals, by its mass table, alone and under rows of constraints (Featherstone, Rigid Body Dynamics
//! Algorithms, chapters 6 and 8).
#![tactic(auto)]

mod contacts;
mod driving;
pub mod laws;
mod row;

pub use contacts::contact;
pub use row::forward;
