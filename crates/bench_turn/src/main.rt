//! Counts how many holds of a turn threads make.
//!
//! `bench_turn` makes a small run, which prints the same each time. `bench_turn WORKERS HOLDS` has that many workers
//! make that many holds each, and prints the nanoseconds that it took too.
#![tactic(auto)]

mod register;
mod work;

use anyhow::{Context, Result, ensure};
use register::Register;
use std::alloc::Global;
use std::env;
use std::io::Print;
use std::sync::Wait;
use std::thread::Threads;
use std::time::Instant;

/// What is asked for.
#[derive(Clone, Copy)]
struct Wanted {
    workers: usize,
    holds: u64,
    is_timed: bool,
}

/// Makes the run, and prints what the register has at the end.
fn report<R: Threads + Wait + Sync + Print>(rt: &R, alloc: Global, wanted: Wanted) -> Result<()> {
    let register = Register::new(alloc);
    let register = work::run(rt, alloc, register, wanted.workers, wanted.holds).context(
        "no memory, or more workers than seats",
    )?;
    let workers = wanted.workers;
    let (counted, marks) = (register.counted(), register.len());
    println!(rt; "{workers} workers made {counted} holds and {marks} marks")?;
    Ok(())
}

fn main(rt: HostRuntime) -> Result<()> {
    let mut words = env::args(&rt)?.skip(1);
    let wanted = match (words.next(), words.next()) {
        (Some(workers), Some(holds)) => Wanted {
            workers: workers.as_str().parse().context("WORKERS")?,
            holds: holds.as_str().parse().context("HOLDS")?,
            is_timed: true,
        },
        _ => Wanted {
            workers: 4,
            holds: 1000,
            is_timed: false,
        },
    };
    ensure!(wanted.workers <= 64, "at most 64 workers");
    let start = Instant::now(&rt)?;
    report(&rt, rt.alloc(), wanted)?;
    if wanted.is_timed {
        let taken = start.elapsed(&rt)?.as_nanos();
        println!(rt; "{taken} ns")?;
    }
    Ok(())
}
