//! Prints the canonical text of each statement of a script.
#![tactic(auto)]

mod line;
mod script;

use crate::script::put_script;
use lb_wire::{Status, StdSink, StdSource};
use std::env;
use std::io::{self, ErrorKind};
use std::process::ExitCode;

/// Why the arguments are unknown: memory was refused, or one of them isn't UTF-8.
fn unknown_arguments(error: &io::Error) -> Status {
    match error.kind() {
        ErrorKind::OutOfMemory => Status::NoMemory,
        _ => Status::BadWords,
    }
}

/// Nothing, where the command line has no word but the program's name.
fn no_arguments(rt: &HostRuntime) -> Result<(), Status> {
    match env::args(rt) {
        Ok(args) => {
            if args.skip(1).next().is_some() {
                return Err(Status::BadWords);
            }
            Ok(())
        }
        Err(error) => Err(unknown_arguments(&error)),
    }
}

fn main(rt: HostRuntime) -> ExitCode {
    match no_arguments(&rt) {
        Ok(()) => {}
        Err(status) => return ExitCode::from(status.number()),
    }
    let mut source = StdSource::new(rt.stdin());
    let mut sink = StdSink::new(rt.stdout());
    let status = put_script(rt.alloc(), &mut source, &mut sink);
    ExitCode::from(status.number())
}
