//! As many passes as are asked for, each at work in a thread of its own.
ghost use Rattle.std.specs.Prelude.{◌≡◌, [], IfSome, vec_len};
ghost use Rattle.std.specs.List.{All};
ghost use Rattle.lb_turn.specs.Passes.{IsChief, IsIdle, IsSplit, passes_of};

use crate::session::{look, work};
use crate::tape::{Entry, Tape};
use lb_turn::{Chief, Pass, SplitFault, Standing, Turn};
use std::alloc::Global;
use std::sync::Wait;
use std::thread;
use std::thread::Threads;

/// Splits that many passes. `None` where no more can be live, or memory has run out.
fn split_all(
    alloc: Global,
    turn: &Turn<Tape>,
    chief: &mut Chief<Entry>,
    count: usize,
) -> Option<Vec<Pass<Entry>>>
    requires chief { IsChief (λ t. 0) turn.now chief.old }
    requires alone { passes_of chief.old ≡ 0 }
    ensures chief { IsChief (λ t. 0) turn.now chief.new }
    ensures split { IfSome result (λ v. All (IsSplit (λ t. 0) turn.now) v.items) }
    ensures count { IfSome result (λ v. (vec_len v ≡ count) × (passes_of chief.new ≡ count)) }
{
    let mut passes = Vec::new(alloc);
    for _ in 0..count {
        let Ok(pass) = turn.split(chief) else {
            return None;
        };
        let Ok(()) = passes.push(pass) else {
            return None;
        };
    }
    Some(passes)
}

/// Joins all passes.
fn join_all(turn: &Turn<Tape>, chief: &mut Chief<Entry>, mut passes: Vec<Pass<Entry>>)
    requires chief { IsChief (λ t. 0) turn.now chief.old }
    requires split { All (IsSplit (λ t. 0) turn.now) passes.items }
    requires count { passes_of chief.old ≡ vec_len passes }
    ensures chief { IsChief (λ t. 0) turn.now chief.new }
    ensures alone { passes_of chief.new ≡ 0 }
{
    while let Some(pass) = passes.pop() {
        turn.join(chief, pass);
    }
}

/// Works on each pass in a thread of its own.
fn work_all<R: Threads + Wait + Sync>(
    rt: &R,
    turn: &Turn<Tape>,
    passes: Vec<Pass<Entry>>,
    each: u64,
) -> Option<Vec<Pass<Entry>>>
    requires { All (IsSplit (λ t. 0) turn.now) passes.items }
    ensures split { IfSome result (λ v. All (IsSplit (λ t. 0) turn.now) v.items) }
    ensures count { IfSome result (λ v. vec_len v ≡ vec_len passes) }
{
    match thread::map_vec(
        rt,
        passes,
        &|pass: Pass<Entry>| -> Pass<Entry>
            requires { IsSplit (λ t. 0) turn.now pass }
            ensures { IsSplit (λ t. 0) turn.entry.now result }
        { work(rt, turn, pass, 0, each) },
    ) {
        Ok(passes) => Some(passes),
        Err(_) => None,
    }
}

/// The tape that so many threads leave, each of which records so many entries. `None` where no more passes can be live, or
/// memory has run out.
pub fn worked<R: Threads + Wait + Sync>(
    rt: &R,
    alloc: Global,
    tape: Tape,
    threads: usize,
    each: u64,
) -> Option<Tape>
    requires { tape.entries.items ≡ [] }
{
    let Ok((turn, mut chief)) = Turn::open(alloc, tape) else {
        return None;
    };
    let passes = split_all(alloc, &turn, &mut chief, threads)?;
    let passes = work_all(rt, &turn, passes, each)?;
    join_all(&turn, &mut chief, passes);
    Some(turn.close(chief))
}

/// Splits as many passes as there may be, and tries one more, also once one was joined. Answers what the two tries gave.
pub fn filled(
    alloc: Global,
    turn: &Turn<Tape>,
    chief: &mut Chief<Entry>,
) -> Option<(Option<SplitFault>, Option<SplitFault>)>
    requires chief { IsChief (λ t. 0) turn.now chief.old }
    requires alone { passes_of chief.old ≡ 0 }
{
    let mut passes = split_all(alloc, turn, chief, 64)?;
    let full = turn.split(chief).err();
    let pass = passes.pop()?;
    turn.join(chief, pass);
    let again = turn.split(chief).err();
    Some((full, again))
}

/// Two threads hold the state, which may be of any type that can be sent.
pub fn look_both<S: Standing + Send, R: Threads + Wait + Sync>(
    rt: &R,
    turn: &Turn<S>,
    mut one: Pass<S::Entry>,
    mut two: Pass<S::Entry>,
) -> (Pass<S::Entry>, Pass<S::Entry>)
    requires one { IsIdle S.number turn.now one }
    requires two { IsIdle S.number turn.now two }
    ensures { IsIdle S.number turn.now result.0 × IsIdle S.number turn.now result.1 }
{
    thread::join(
        rt,
        move || -> Pass<S::Entry>
            requires { IsIdle S.number turn.now one }
            ensures { IsIdle S.number turn.entry.now result }
        {
            look(rt, turn, &mut one);
            one
        },
        move || -> Pass<S::Entry>
            requires { IsIdle S.number turn.now two }
            ensures { IsIdle S.number turn.entry.now result }
        {
            look(rt, turn, &mut two);
            two
        },
    )
}
