//! One pass at work: it records entries of sessions that are its own.
ghost use Rattle.std.specs.Prelude.{◌≡◌, ◌<◌, ◌≤◌, [], ◌∷◌, ◌++◌, length, slice_get, Some, IfSome, IfNone};
ghost use Rattle.std.specs.List.{Contains};
ghost use mathlib.Core.List.{IsPrefix};
ghost use Rattle.lb_turn.specs.Known.{known};
ghost use Rattle.lb_turn.specs.Passes.{IsIdle, IsSameSeat, IsSplit, HasAllParts, known_by, seen_by, own_by};
ghost use Rattle.turn_tests.specs.Tape.{IsOpened};

use crate::tape::{Entry, Tape};
use lb_turn::{Pass, Standing, Turn};
use std::sync::Wait;

/// Records an entry, and answers its place. `None` where the tape is full or memory has run out; the pass has the same own
/// places then.
#[tactic(auto, using(lb_turn::proofs::Uses::idle_again))]
pub fn add<R: Wait>(rt: &R, turn: &Turn<Tape>, pass: &mut Pass<Entry>, entry: Entry) -> Option<u64>
    requires idle { IsIdle (λ t. 0) turn.now pass.old }
    requires opened { IsOpened (own_by pass.old) entry }
    ensures idle { IsIdle (λ t. 0) turn.now pass.new }
    ensures seat { IsSameSeat pass.old pass.new }
    ensures seen { IsPrefix (seen_by pass.old) (seen_by pass.new) }
    ensures place { IfSome result (λ place. (place < 8192) × (length (seen_by pass.old) ≤ place) × (slice_get (seen_by pass.new) place ≡ Some entry)) }
    ensures own { IfSome result (λ place. own_by pass.new ≡ own_by pass.old ++ place ∷ []) }
    ensures whole { IfSome result (λ place. HasAllParts pass.old → (place ≡ length (seen_by pass.old)) × (known_by pass.new ≡ known (seen_by pass.old ++ entry ∷ []) (own_by pass.old ++ length (seen_by pass.old) ∷ []))) }
    ensures none { IfNone result (own_by pass.new ≡ own_by pass.old) }
{
    let mut held = turn.hold(rt, pass);
    match held.state().put(entry) {
        Some(place) => {
            held.record();
            held.give_back();
            Some(place)
        }
        None => {
            held.give_back();
            None
        }
    }
}

/// Records one more entry of an opener, where there is room.
pub fn follow<R: Wait>(rt: &R, turn: &Turn<Tape>, pass: &mut Pass<Entry>, opener: u64, number: u64)
    requires split { IsSplit (λ t. 0) turn.now pass.old }
    requires own { Contains (own_by pass.old) opener }
    ensures split { IsSplit (λ t. 0) turn.now pass.new }
    ensures own { Contains (own_by pass.new) opener }
{
    match add(rt, turn, pass, Entry::Adds { opener, number }) {
        Some(_) => {}
        None => {}
    }
}

/// Opens a session on a pass, and adds its other entries, numbered from 1, until there are as many as is said.
pub fn work<R: Wait>(
    rt: &R,
    turn: &Turn<Tape>,
    mut pass: Pass<Entry>,
    session: u64,
    each: u64,
) -> Pass<Entry>
    requires { IsSplit (λ t. 0) turn.now pass }
    ensures { IsSplit (λ t. 0) turn.now result }
{
    if let Some(opener) = add(rt, turn, &mut pass, Entry::Opens(session)) {
        for number in 1..each {
            follow(rt, turn, &mut pass, opener, number);
        }
    }
    pass
}

/// Holds the state, which may be of any type, and gives it back as it is.
#[tactic(auto, using(lb_turn::proofs::Uses::idle_again))]
pub fn look<S: Standing, R: Wait>(rt: &R, turn: &Turn<S>, pass: &mut Pass<S::Entry>)
    requires { IsIdle S.number turn.now pass.old }
    ensures idle { IsIdle S.number turn.now pass.new }
    ensures seen { IsPrefix (seen_by pass.old) (seen_by pass.new) }
{
    turn.hold(rt, pass).give_back();
}
