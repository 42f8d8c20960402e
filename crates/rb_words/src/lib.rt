//! The words of a command line: what a run is asked for.
#![tactic(auto)]

mod command;
mod faults;
mod gravity;
mod laws;
mod options;
mod order;
mod words;

pub use command::Command;
pub use faults::{WordsFault, WordsStop};
pub use laws::words_law;
pub use order::Order;
pub use words::read_words;
