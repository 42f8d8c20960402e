//! Rigid body dynamics in certified intervals.
#![tactic(auto)]

mod desk;
mod ends;
mod put;
mod read;
mod rows;
mod run;
mod status;
mod stop;
#[cfg(test)]
mod tests;

use rb_io::{FileInputs, StdSink};
use run::run;
use status::Status;
use std::env;
use std::io::ErrorKind;
use std::process::ExitCode;

fn main(rt: HostRuntime) -> ExitCode {
    let args = match env::args(&rt) {
        Ok(args) => args,
        Err(fault) if fault.kind() == ErrorKind::OutOfMemory => {
            return ExitCode::from(Status::Memory.code());
        }
        Err(_) => return ExitCode::from(Status::Usage.code()),
    };
    let words = match args.collect::<Vec<String>>(rt.alloc()) {
        Ok(words) => words,
        Err(_) => return ExitCode::from(Status::Memory.code()),
    };
    let mut inputs = FileInputs::new(&rt);
    let mut out = StdSink::new(rt.stdout());
    let mut err = StdSink::new(rt.stderr());
    let status = run(
        rt.alloc(),
        words.as_slice(),
        &mut inputs,
        &mut out,
        &mut err,
    );
    ExitCode::from(status.code())
}
