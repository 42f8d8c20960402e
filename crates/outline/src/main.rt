//! The outline of a robot: its bodies in their order, each with its depth, its names and its columns, and the mass of all. It shows how the crates
//! are called from outside.
#![tactic(auto)]

mod faults;
mod outline;
mod reading;
mod run;
#[cfg(test)]
mod tests;

use faults::Fault;
use rb_io::{FileInputs, StdSink};
use run::run;
use std::env;
use std::io::ErrorKind;
use std::process::ExitCode;

/// Puts the outline that the words of the command line ask for.
fn answer(rt: &HostRuntime) -> Result<(), Fault> {
    let words = match env::args(rt) {
        Ok(args) => args.collect::<Vec<String>>(rt.alloc())?,
        Err(why) if why.kind() == ErrorKind::OutOfMemory => return Err(Fault::Memory),
        Err(_) => return Err(Fault::Usage),
    };
    let mut inputs = FileInputs::new(rt);
    let mut out = StdSink::new(rt.stdout());
    run(rt.alloc(), words.as_slice(), &mut inputs, &mut out)
}

fn main(rt: HostRuntime) -> ExitCode {
    match answer(&rt) {
        Ok(()) => ExitCode::SUCCESS,
        Err(fault) => {
            let _told = eprintln!(rt; "outline: {fault}");
            ExitCode::FAILURE
        }
    }
}
