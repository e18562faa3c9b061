//! Runs a script of SQL statements from standard input to standard output.
#![tactic(auto)]

use lb_base::{Listing, Str};
use lb_front::run_alone;
use lb_wire::{DayClock, Status, StdSink, StdSource};
use std::env;
use std::io::{self, ErrorKind};
use std::process::ExitCode;

/// Why there are no arguments: memory was refused, or one of them isn't UTF-8.
fn no_arguments(error: &io::Error) -> Status {
    match error.kind() {
        ErrorKind::OutOfMemory => Status::NoMemory,
        _ => Status::BadWords,
    }
}

/// The arguments after the program's name. Arguments that aren't UTF-8 are those of a faulty command line.
fn arguments(rt: &HostRuntime) -> Result<Listing<Str>, Status> {
    let alloc = rt.alloc();
    let mut arguments = Listing::empty(alloc);
    let args = match env::args(rt) {
        Ok(args) => args,
        Err(error) => return Err(no_arguments(&error)),
    };
    for word in args.skip(1) {
        let word = match Str::of(alloc, word.as_str()) {
            Ok(word) => word,
            Err(_) => return Err(Status::NoMemory),
        };
        if arguments.push(word).is_err() {
            return Err(Status::NoMemory);
        }
    }
    Ok(arguments)
}

fn main(rt: HostRuntime) -> ExitCode {
    let arguments = match arguments(&rt) {
        Ok(arguments) => arguments,
        Err(status) => return ExitCode::from(status.number()),
    };
    let mut source = StdSource::new(rt.stdin());
    let mut sink = StdSink::new(rt.stdout());
    let mut clock = DayClock::new(&rt);
    let status = run_alone(
        rt.alloc(),
        arguments.as_slice(),
        &mut source,
        &mut sink,
        &mut clock,
    );
    ExitCode::from(status.number())
}
