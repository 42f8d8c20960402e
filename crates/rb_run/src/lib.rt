//! The answer of one row as a value of its own, and the line that tells it.
#![tactic(auto)]

mod answer;
mod job;
pub mod laws;
mod line;
mod slot;
mod values;

pub use answer::{answer_row, answer_slot};
pub use job::Job;
pub use line::{line_room, put_line, put_number};
pub use rb_rows::Task;
pub use slot::{Answer, Slot, SlotInput};
pub use values::Values;
