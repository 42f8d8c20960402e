//! The rows of a table: the columns that its header names, and the state that each line tells.
#![tactic(auto)]

mod columns;
mod faults;
mod head;
mod header;
mod laws;
mod names;
mod plain;
mod row;
mod task;

pub use faults::{FieldFault, FieldKind, HeaderFault, HeaderKind, LineFault};
pub use head::{column_line, head_line, record_line};
pub use header::{Header, Target};
pub use laws::{header_law, line_law, row_law};
pub use row::read_row;
pub use task::Task;
