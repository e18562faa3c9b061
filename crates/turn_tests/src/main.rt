//! Tries the ticket turn in threads, and prints what came of it. Every run prints the same.
#![tactic(auto)]

ghost use Rattle.std.specs.Prelude.{◌≡◌, []};

mod session;
mod tape;
mod threads;
mod three;

use anyhow::{Context, Result};
use lb_turn::{SplitFault, Turn};
use session::add;
use std::alloc::Global;
use std::sync::Wait;
use std::thread::Threads;
use tape::{Entry, Tape};
use threads::{filled, look_both, worked};
use three::{open_on, three_sessions};

/// An empty tape.
fn empty(alloc: Global) -> Tape
    ensures { result.entries.items ≡ [] }
{
    Tape {
        entries: Vec::new(alloc),
    }
}

/// The number of a session that opens.
fn session_of(entry: Option<&Entry>) -> Option<u64> {
    match entry {
        Some(Entry::Opens(session)) => Some(*session),
        _ => None,
    }
}

/// Whether the entries of the session that opened at this place are numbered from 1 in their order, up to so many.
fn is_in_order(tape: &Tape, place: u64, each: u64) -> bool {
    let mut next = 1u64;
    for entry in &tape.entries {
        if let Entry::Adds { opener, number } = entry {
            if *opener == place {
                if *number != next {
                    return false;
                }
                next = next.wrapping_add(1);
            }
        }
    }
    next == each
}

/// How many sessions opened whose entries are in order.
fn in_order(tape: &Tape, each: u64) -> u64 {
    let mut sessions = 0u64;
    for (place, entry) in tape.entries.iter().enumerate() {
        if let Entry::Opens(_) = entry {
            if is_in_order(tape, place as u64, each) {
                sessions = sessions.wrapping_add(1);
            }
        }
    }
    sessions
}

/// Eight threads record 1,000 entries each. Answers how many sessions are in order, and how many entries there are.
fn by_eight<R: Threads + Wait + Sync>(rt: &R, alloc: Global) -> Result<(u64, usize)> {
    let tape = worked(rt, alloc, empty(alloc), 8, 1000).context("no memory")?;
    Ok((in_order(&tape, 1000), tape.entries.len()))
}

/// Splits as many passes as there may be. Answers what one more gives, and what one more gives after a join.
fn by_all_seats(alloc: Global) -> Result<(Option<SplitFault>, Option<SplitFault>)> {
    let (turn, mut chief) = Turn::open(alloc, empty(alloc)).ok().context("no memory")?;
    filled(alloc, &turn, &mut chief).context("no memory")
}

/// The chief records on its own pass. Answers the two places, and how many entries there are at the end.
fn by_the_chief<R: Wait>(rt: &R, alloc: Global) -> Result<(Option<u64>, Option<u64>, usize)> {
    let (turn, mut chief) = Turn::open(alloc, empty(alloc)).ok().context("no memory")?;
    let first = open_on(rt, &turn, &mut chief, 0);
    let second = open_on(rt, &turn, &mut chief, 1);
    Ok((first, second, turn.close(chief).entries.len()))
}

/// Two threads hold a turn over a state of any type. Answers the place of an entry that is recorded then.
fn by_two<R: Threads + Wait + Sync>(rt: &R, alloc: Global) -> Result<Option<u64>> {
    let (turn, mut chief) = Turn::open(alloc, empty(alloc)).ok().context("no memory")?;
    let one = turn.split(&mut chief).ok().context("no seat")?;
    let two = turn.split(&mut chief).ok().context("no seat")?;
    let (mut one, two) = look_both(rt, &turn, one, two);
    drop(two);
    Ok(add(rt, &turn, &mut one, Entry::Opens(0)))
}

fn main(rt: HostRuntime) -> Result<()> {
    let alloc = rt.alloc();
    let tape = three_sessions(&rt, alloc, empty(alloc)).context("no memory")?;
    let entries = &tape.entries;
    let (first, second, third) = (
        session_of(entries.get(0)),
        session_of(entries.get(1)),
        session_of(entries.get(2)),
    );
    let count = entries.len();
    println!(rt; "three sessions: {first:?} {second:?} {third:?} open, {count} entries")?;
    let (sessions, count) = by_eight(&rt, alloc)?;
    println!(rt; "eight threads: {sessions} sessions in order, {count} entries")?;
    let (full, again) = by_all_seats(alloc)?;
    println!(rt; "one pass more than 64: {full:?}, after a join: {again:?}")?;
    let (first, second, count) = by_the_chief(&rt, alloc)?;
    println!(rt; "the chief records at {first:?} and {second:?}, {count} entries")?;
    let place = by_two(&rt, alloc)?;
    println!(rt; "two threads hold, and one records at {place:?}")?;
    Ok(())
}
