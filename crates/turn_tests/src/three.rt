//! Three sessions, which a chief opens one after the other and hands each to a pass of its own.
ghost use Rattle.std.specs.Prelude.{◌≡◌, ◌+◌, ◌<◌, [], ◌∷◌, ◌++◌, length, IfSome};
ghost use mathlib.Core.List.{IsPrefix};
ghost use Rattle.lb_turn.specs.Known.{known, nothing};
ghost use Rattle.lb_turn.specs.Passes.{IsChief, IsSplit, known_by, seen_by, own_by, pass_of, passes_of};
ghost use Rattle.turn_tests.specs.declared.tape.Entry.TheVariants.{Opens};
ghost use Rattle.turn_tests.specs.Tape.{three_opens, AreRooted, IsRooted};

use crate::session::add;
use crate::tape::{Entry, Tape};
use lb_turn::{Chief, Pass, Turn};
use std::alloc::Global;
use std::sync::Wait;
use std::thread;
use std::thread::Threads;

/// The passes of three sessions.
#[derive(Drop)]
struct Three {
    first: Pass<Entry>,
    second: Pass<Entry>,
    third: Pass<Entry>,
}

/// Opens a session through the chief's own pass, and answers its place.
pub fn open_on<R: Wait>(
    rt: &R,
    turn: &Turn<Tape>,
    chief: &mut Chief<Entry>,
    session: u64,
) -> Option<u64>
    requires chief { IsChief (λ t. 0) turn.now chief.old }
    ensures chief { IsChief (λ t. 0) turn.now chief.new }
    ensures passes { passes_of chief.new ≡ passes_of chief.old }
    ensures known { IfSome result (λ place. passes_of chief.old ≡ 0 → known_by (pass_of chief.new) ≡ known (seen_by (pass_of chief.old) ++ Opens session ∷ []) (own_by (pass_of chief.old) ++ length (seen_by (pass_of chief.old)) ∷ [])) }
{
    add(rt, turn, chief.pass(), Entry::Opens(session))
}

/// Opens three sessions, one after the other, and hands each to a pass, from the last down. `None` where memory has run
/// out.
fn open_three<R: Wait>(rt: &R, turn: &Turn<Tape>, chief: &mut Chief<Entry>) -> Option<Three>
    requires chief { IsChief (λ t. 0) turn.now chief.old }
    requires alone { passes_of chief.old ≡ 0 }
    requires new { known_by (pass_of chief.old) ≡ nothing }
    ensures chief { IsChief (λ t. 0) turn.now chief.new }
    ensures passes { IfSome result (λ t. passes_of chief.new ≡ 3) }
    ensures kept { IfSome result (λ t. known_by (pass_of chief.new) ≡ known three_opens []) }
    ensures first { IfSome result (λ t. IsSplit (λ t. 0) turn.now t.first × (known_by t.first ≡ known three_opens (0 ∷ []))) }
    ensures second { IfSome result (λ t. IsSplit (λ t. 0) turn.now t.second × (known_by t.second ≡ known three_opens (1 ∷ []))) }
    ensures third { IfSome result (λ t. IsSplit (λ t. 0) turn.now t.third × (known_by t.third ≡ known three_opens (2 ∷ []))) }
{
    open_on(rt, turn, chief, 0)?;
    open_on(rt, turn, chief, 1)?;
    open_on(rt, turn, chief, 2)?;
    let third = turn.split_last(chief).ok()?;
    let second = turn.split_last(chief).ok()?;
    let first = turn.split_last(chief).ok()?;
    Some(Three {
        first,
        second,
        third,
    })
}

/// Records one entry of a session on its pass, where there is room.
fn record_one<R: Wait>(rt: &R, turn: &Turn<Tape>, mut pass: Pass<Entry>, opener: u64) -> Pass<Entry>
    requires split { IsSplit (λ t. 0) turn.now pass }
    requires opener { opener < 3 }
    requires known { known_by pass ≡ known three_opens (opener ∷ []) }
    ensures split { IsSplit (λ t. 0) turn.now result }
    ensures rooted { AreRooted (seen_by result) (own_by result) }
{
    match add(rt, turn, &mut pass, Entry::Adds { opener, number: 1 }) {
        Some(_) => {}
        None => {}
    }
    pass
}

/// Records an entry of each session, in threads of their own.
fn record_three<R: Threads + Wait + Sync>(rt: &R, turn: &Turn<Tape>, passes: Three) -> Three
    requires first { IsSplit (λ t. 0) turn.now passes.first × (known_by passes.first ≡ known three_opens (0 ∷ [])) }
    requires second { IsSplit (λ t. 0) turn.now passes.second × (known_by passes.second ≡ known three_opens (1 ∷ [])) }
    requires third { IsSplit (λ t. 0) turn.now passes.third × (known_by passes.third ≡ known three_opens (2 ∷ [])) }
    ensures first { IsSplit (λ t. 0) turn.now result.first × AreRooted (seen_by result.first) (own_by result.first) }
    ensures second { IsSplit (λ t. 0) turn.now result.second × AreRooted (seen_by result.second) (own_by result.second) }
    ensures third { IsSplit (λ t. 0) turn.now result.third × AreRooted (seen_by result.third) (own_by result.third) }
{
    let Three {
        first,
        second,
        third,
    } = passes;
    let (first, (second, third)) = thread::join(
        rt,
        move || -> Pass<Entry>
            requires { IsSplit (λ t. 0) turn.now first × (known_by first ≡ known three_opens (0 ∷ [])) }
            ensures { IsSplit (λ t. 0) turn.entry.now result × AreRooted (seen_by result) (own_by result) }
        { record_one(rt, turn, first, 0) },
        move || -> (Pass<Entry>, Pass<Entry>)
            requires { (IsSplit (λ t. 0) turn.now second × (known_by second ≡ known three_opens (1 ∷ []))) × (IsSplit (λ t. 0) turn.now third × (known_by third ≡ known three_opens (2 ∷ []))) }
            ensures { (IsSplit (λ t. 0) turn.entry.now result.0 × AreRooted (seen_by result.0) (own_by result.0)) × (IsSplit (λ t. 0) turn.entry.now result.1 × AreRooted (seen_by result.1) (own_by result.1)) }
        {
            thread::join(
                rt,
                move || -> Pass<Entry>
                    requires { IsSplit (λ t. 0) turn.now second × (known_by second ≡ known three_opens (1 ∷ [])) }
                    ensures { IsSplit (λ t. 0) turn.entry.now result × AreRooted (seen_by result) (own_by result) }
                { record_one(rt, turn, second, 1) },
                move || -> Pass<Entry>
                    requires { IsSplit (λ t. 0) turn.now third × (known_by third ≡ known three_opens (2 ∷ [])) }
                    ensures { IsSplit (λ t. 0) turn.entry.now result × AreRooted (seen_by result) (own_by result) }
                { record_one(rt, turn, third, 2) },
            )
        },
    );
    Three {
        first,
        second,
        third,
    }
}

/// Joins a pass whose places have their roots among the first three.
fn join_rooted(turn: &Turn<Tape>, chief: &mut Chief<Entry>, pass: Pass<Entry>)
    requires chief { IsChief (λ t. 0) turn.now chief.old }
    requires pass { IsSplit (λ t. 0) turn.now pass }
    requires rooted { AreRooted (seen_by (pass_of chief.old)) (own_by (pass_of chief.old)) }
    requires both { AreRooted (seen_by pass) (own_by pass) }
    ensures chief { IsChief (λ t. 0) turn.now chief.new }
    ensures passes { passes_of chief.new + 1 ≡ passes_of chief.old }
    ensures seen { IsPrefix (seen_by (pass_of chief.old)) (seen_by (pass_of chief.new)) }
    ensures rooted { AreRooted (seen_by (pass_of chief.new)) (own_by (pass_of chief.new)) }
{
    turn.join(chief, pass);
}

/// The tape of three sessions, whose entries three threads record. It begins with the opens of the three in their order,
/// and each entry is of one of them. `None` where memory has run out.
pub fn three_sessions<R: Threads + Wait + Sync>(rt: &R, alloc: Global, tape: Tape) -> Option<Tape>
    requires { tape.entries.items ≡ [] }
    ensures begins { IfSome result (λ t. IsPrefix three_opens t.entries.items) }
    ensures rooted { IfSome result (λ t. IsRooted t.entries.items) }
{
    let Ok((turn, mut chief)) = Turn::open(alloc, tape) else {
        return None;
    };
    let passes = open_three(rt, &turn, &mut chief)?;
    let Three {
        first,
        second,
        third,
    } = record_three(rt, &turn, passes);
    join_rooted(&turn, &mut chief, first);
    join_rooted(&turn, &mut chief, second);
    join_rooted(&turn, &mut chief, third);
    Some(turn.close(chief))
}
