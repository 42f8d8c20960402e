//! The model of a robot as lines of comma-separated values: the brackets of its joints and links, its groups, and a position.
#![tactic(auto)]

mod fields;
mod laws;
mod lines;
mod model;

pub use laws::model_law;
pub use model::model_text;
