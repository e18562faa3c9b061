//! The workers: each has a pass of its own and makes its holds in a thread of its own, between a mark that it begins and one that it ends.
ghost use Rattle.std.specs.Prelude.{◌≡◌, ◌+◌, ◌<◌, ◌≤◌, [], ◌∷◌, ◌++◌, length, IfSome, IfNone, vec_len};
ghost use Rattle.std.specs.List.{All, Contains};
ghost use Rattle.lb_turn.specs.Passes.{IsChief, IsIdle, IsSameSeat, IsSplit, own_by, pass_of, passes_of, seen_by};
ghost use Rattle.bench_turn.specs.Marks.{IsBegun};

use crate::register::{Mark, Register};
use lb_turn::{Chief, Pass, Turn};
use std::alloc::Global;
use std::sync::Wait;
use std::thread;
use std::thread::Threads;

/// Counts one hold.
#[tactic(auto, using(lb_turn::proofs::Uses::idle_again))]
fn count_hold<R: Wait>(rt: &R, turn: &Turn<Register>, pass: &mut Pass<Mark>)
    requires { IsIdle (λ r. 0) turn.now pass.old }
    ensures idle { IsIdle (λ r. 0) turn.now pass.new }
    ensures seat { IsSameSeat pass.old pass.new }
    ensures own { own_by pass.new ≡ own_by pass.old }
{
    let mut held = turn.hold(rt, pass);
    held.state().count();
    held.give_back();
}

/// Records a mark, and answers its place.
#[tactic(auto, using(lb_turn::proofs::Uses::idle_again))]
fn sign<R: Wait>(rt: &R, turn: &Turn<Register>, pass: &mut Pass<Mark>, mark: Mark) -> Option<u64>
    requires idle { IsIdle (λ r. 0) turn.now pass.old }
    requires begun { IsBegun (own_by pass.old) mark }
    ensures idle { IsIdle (λ r. 0) turn.now pass.new }
    ensures seat { IsSameSeat pass.old pass.new }
    ensures own { IfSome result (λ place. own_by pass.new ≡ own_by pass.old ++ place ∷ []) }
{
    let mut held = turn.hold(rt, pass);
    match held.state().put(mark) {
        Some(place) => {
            held.record();
            held.give_back();
            Some(place)
        }
        None => {
            held.give_back();
            None
        }
    }
}

/// Begins, makes the holds, and ends.
fn work<R: Wait>(rt: &R, turn: &Turn<Register>, mut pass: Pass<Mark>, holds: u64) -> Pass<Mark>
    requires { IsSplit (λ r. 0) turn.now pass }
    ensures { IsSplit (λ r. 0) turn.now result }
{
    let Some(began) = sign(rt, turn, &mut pass, Mark::Begins) else {
        return pass;
    };
    for _ in 0..holds {
        count_hold(rt, turn, &mut pass);
    }
    let _ = sign(rt, turn, &mut pass, Mark::Ends(began));
    pass
}

/// Splits that many passes.
fn split_all(
    alloc: Global,
    turn: &Turn<Register>,
    chief: &mut Chief<Mark>,
    count: usize,
) -> Option<Vec<Pass<Mark>>>
    requires chief { IsChief (λ r. 0) turn.now chief.old }
    requires alone { passes_of chief.old ≡ 0 }
    ensures chief { IsChief (λ r. 0) turn.now chief.new }
    ensures split { IfSome result (λ v. All (IsSplit (λ r. 0) turn.now) v.items) }
    ensures count { IfSome result (λ v. passes_of chief.new ≡ vec_len v) }
{
    let mut passes = Vec::new(alloc);
    for _ in 0..count {
        let Ok(pass) = turn.split(chief) else {
            return None;
        };
        let Ok(()) = passes.push(pass) else {
            return None;
        };
    }
    Some(passes)
}

/// Joins all passes.
fn join_all(turn: &Turn<Register>, chief: &mut Chief<Mark>, mut passes: Vec<Pass<Mark>>)
    requires chief { IsChief (λ r. 0) turn.now chief.old }
    requires split { All (IsSplit (λ r. 0) turn.now) passes.items }
    requires count { passes_of chief.old ≡ vec_len passes }
    ensures chief { IsChief (λ r. 0) turn.now chief.new }
    ensures alone { passes_of chief.new ≡ 0 }
{
    while let Some(pass) = passes.pop() {
        turn.join(chief, pass);
    }
}

/// Works on each pass in a thread of its own.
fn work_all<R: Threads + Wait + Sync>(
    rt: &R,
    turn: &Turn<Register>,
    passes: Vec<Pass<Mark>>,
    holds: u64,
) -> Option<Vec<Pass<Mark>>>
    requires { All (IsSplit (λ r. 0) turn.now) passes.items }
    ensures split { IfSome result (λ v. All (IsSplit (λ r. 0) turn.now) v.items) }
    ensures count { IfSome result (λ v. vec_len v ≡ vec_len passes) }
{
    match thread::map_vec(
        rt,
        passes,
        &|pass: Pass<Mark>| -> Pass<Mark>
            requires { IsSplit (λ r. 0) turn.now pass }
            ensures { IsSplit (λ r. 0) turn.entry.now result }
        { work(rt, turn, pass, holds) },
    ) {
        Ok(passes) => Some(passes),
        Err(_) => None,
    }
}

/// The register at the end: its marks are what the chief has seen.
fn ended(turn: Turn<Register>, chief: Chief<Mark>) -> Register
    requires chief { IsChief (λ r. 0) turn chief }
    requires alone { passes_of chief ≡ 0 }
    ensures { result.marks.items ≡ seen_by (pass_of chief) }
{
    turn.close(chief)
}

/// What the workers leave of an empty register. `None` where there is no memory, or are more than 64 workers.
pub fn run<R: Threads + Wait + Sync>(
    rt: &R,
    alloc: Global,
    register: Register,
    workers: usize,
    holds: u64,
) -> Option<Register>
    requires { register.marks.items ≡ [] }
{
    let Ok((turn, mut chief)) = Turn::open(alloc, register) else {
        return None;
    };
    let passes = split_all(alloc, &turn, &mut chief, workers)?;
    let passes = work_all(rt, &turn, passes, holds)?;
    join_all(&turn, &mut chief, passes);
    Some(ended(turn, chief))
}
