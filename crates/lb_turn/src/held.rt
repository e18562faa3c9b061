//! The state while a pass holds the turn: a caller works on it, records what it added, and gives it back.
ghost use Rattle.std.specs.Prelude.{◌≡◌, ◌+◌, ◌^◌, ◌<◌, [], ◌∷◌, ◌++◌, length, Some};
ghost use types.Logic.{sem};
ghost use Rattle.lb_turn.specs.Lending.{lends_state};
ghost use Rattle.lb_turn.specs.Holding.{IsHolding, AddsOne, AddsOwn, IsLentTo, IsSeatOf, IsLentOn, IsSeatOn, IsGivenBack, turn_of, state_in, history_in, number_in, seen_in, own_in};
ghost use Rattle.lb_turn.specs.Known.{IsWithin, IsWhole, Grows};
ghost use Rattle.lb_turn.specs.Passes.{IsIdle, HasAllParts, fixed_number, known_by, own_by};

use crate::pass::Pass;
use crate::standing::Standing;
use crate::steps::TurnSeat;
use crate::turn::Turn;
use atomic_table::Badge;
use std::mem;
use std::sync::Wait;

/// The state of a turn, lent to a pass. It has to be given back.
pub struct Held<'a, S: Standing> {
    turn: &'a Turn<S>,
    pass: &'a mut Pass<S::Entry>,
    seat: TurnSeat<S, S::Entry>,
    state: Option<S>,
    count: u64,
}

impl<S: Standing> Turn<S> {
    /// Waits for the pass's turn, and lends it the state. The pass has then seen the state's whole history. Where no other
    /// pass is live, it had seen that history before, and each place of it is its own.
    ///
    /// The pass has to be idle and of this turn. The call may wait forever, and takes no memory.
    pub fn hold<'a, R: Wait>(&'a self, rt: &R, pass: &'a mut Pass<S::Entry>) -> Held<'a, S>
        requires { IsIdle S.number self.now pass.old }
        ensures lent { IsLentTo pass.entry result }
        ensures turn { turn_of result ≡ self.entry.now }
        ensures holding { IsHolding S.number result }
        ensures seat { IsSeatOf pass.old result }

        ensures history { history_in S.history result ≡ seen_in result }
        ensures number { number_in S.number result ≡ fixed_number S.number self.entry.now }
        ensures grows { Grows S.root (known_by pass.old) (seen_in result) }
        ensures own { own_in result ≡ own_by pass.old }
        ensures within { IsWithin (known_by pass.old) }
        ensures whole { HasAllParts pass.old → IsWhole (known_by pass.old) (seen_in result) }
    {
        let badge = mem::replace(&mut pass.badge, Badge::blank());
        let mut seat = badge.into_seat::<Option<S>>();
        let (state, count) = self.take_turn(rt, &mut seat);
        Held {
            turn: self,
            pass,
            seat,
            state,
            count,
        }
    }
}

impl<'a, S: Standing> Held<'a, S> {
    /// The state.
    pub fn state(&mut self) -> &mut S
        requires { IsHolding S.number self.old }
        ensures* writes_back { sem 𝓛 (lends_state S.row S.Entry.row S.Standing self.entry result) }
        ensures value { state_in self.old ≡ Some result.now }
    {
        match &mut self.state {
            Some(state) => state,
            None => unreachable!(),
        }
    }

    /// Records the one entry that the state's history has beyond what the pass has seen. Its place becomes the pass's own.
    ///
    /// The entry's root has to be its own place or a place of the pass's own, and the history to have fewer than 2^64
    /// entries. Takes no memory.
    pub fn record(&mut self)
        requires holding { IsHolding S.number self.old }
        requires one { AddsOne S.history self.old }
        requires own { AddsOwn S.history S.root self.old }
        requires room { length (seen_in self.old) + 1 < 2 ^ 64 }
        ensures lent { IsLentOn self.old self.new }
        ensures turn { turn_of self.new ≡ turn_of self.old }
        ensures holding { IsHolding S.number self.new }
        ensures seat { IsSeatOn self.old self.new }

        ensures state { state_in self.new ≡ state_in self.old }
        ensures seen { seen_in self.new ≡ history_in S.history self.old }
        ensures own { own_in self.new ≡ own_in self.old ++ length (seen_in self.old) ∷ [] }
    {
        self.turn
            .raise_count(&mut self.seat, self.count, &self.state);
        self.count += 1;
    }

    /// Gives the state back, and passes the turn on. The pass is then idle.
    ///
    /// Each entry of the state's history has to be recorded, and its number to be the turn's. Takes no memory.
    pub fn give_back(self)
        requires holding { IsHolding S.number self }
        requires history { history_in S.history self ≡ seen_in self }
        requires number { number_in S.number self ≡ fixed_number S.number (turn_of self) }
        ensures { IsGivenBack self.entry self.exit.1.0.now }
    {
        let Held {
            turn,
            pass,
            mut seat,
            state,
            count: _,
        } = self;
        turn.pass_on(&mut seat, state);
        pass.badge = seat.into_badge();
    }
}
