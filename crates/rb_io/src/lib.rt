//! Sources and sinks of bytes: what is read, what is written, and a count of the calls that failed; and the lines of what is read.
//!
//! The forms in memory tell their bytes. The adapters over the machine's files and streams tell
//! none: what a file or a stream holds is trusted. Their contracts say that they pass on the very
//! bytes that the stream below gave or took.
#![tactic(auto)]

mod calls;
mod host;
mod inputs;
mod lines;
mod mem_bytes;
mod mem_file;
mod mem_files;
mod memory;
mod outside;
mod pieces;
mod tally;

pub use calls::{Bytes, FileFault, put_all, read_all};
pub use host::{FileInputs, StdSink};
pub use inputs::{MemInputs, NoFaultsInputs};
pub use lines::{Cut, MOST_LINE, first_line, next_line};
pub use memory::{MemSink, NoFaultsSink};
pub use outside::{Failed, Inputs, Sink};
