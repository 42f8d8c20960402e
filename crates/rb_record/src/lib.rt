//! One line as a record of comma-separated values.
#![tactic(auto)]

mod fields;

pub use fields::{are_text, field, read_line};
