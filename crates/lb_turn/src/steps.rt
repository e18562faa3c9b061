//! The steps of a seat at the turn. The ticket that is next, the ticket that is served and the count of the history are
//! words of the table, and the state is in its one slot.
ghost use Rattle.std.specs.Prelude.{◌≡◌, ◌+◌, ◌^◌, ◌<◌, ◌≤◌, [], ◌∷◌, ◌++◌, length, IsSome};
ghost use Rattle.lb_turn.specs.declared.rule.Role.TheVariants.{Idle};
ghost use Rattle.lb_turn.specs.Holding.{HasTurn, history_of, number_of};
ghost use Rattle.lb_turn.specs.Known.{known, nothing, united, IsWithin, IsWhole, Grows, Belongs, Divides, all_parts};
ghost use Rattle.lb_turn.specs.Steps.{kept_view, given_view};

use crate::rule::{Count, Cut, Draw, Glue, Handing, Look, Merge, PassOn, Record, View};
use crate::standing::Standing;
use crate::turn::Turn;
use atomic_table::Seat;
use crossbeam_utils::Backoff;
use std::sync::Wait;

/// The word of the ticket that is drawn next.
const NEXT: usize = 0;

/// The word of the ticket that is served.
const SERVED: usize = 1;

/// The word of the count of the history.
const COUNT: usize = 2;

/// The slot of the state.
const STATE: usize = 0;

pub(crate) type TurnSeat<S, N> = Seat<Option<S>, View<N>>;

impl<S: Standing> Turn<S> {
    /// Waits for the seat's turn, and takes the state out of its slot. Returns the count of its history too.
    pub(crate) fn take_turn<R: Wait>(
        &self,
        rt: &R,
        seat: &mut TurnSeat<S, S::Entry>,
    ) -> (Option<S>, u64)
        requires same { seat.old.table_id ≡ self.now.table.shared.table_id }
        requires idle { (seat.old.me.0.role ≡ Idle) × (seat.old.me.0.other ≡ nothing) × (0 < seat.old.me.0.parts) × (seat.old.me.1 ≡ []) }
        ensures same { (seat.new.table_id ≡ seat.old.table_id) × (seat.new.id ≡ seat.old.id) }
        ensures held { HasTurn seat.new.me }
        ensures state { IsSome result.0 }
        ensures history { history_of S.history result.0 ≡ seat.new.me.0.known.seen }
        ensures number { number_of S.number result.0 ≡ seat.old.me.0.number }
        ensures count { result.1 ≡ length seat.new.me.0.known.seen }
        ensures grows { Grows S.root seat.old.me.0.known seat.new.me.0.known.seen }
        ensures own { seat.new.me.0.known.own ≡ seat.old.me.0.known.own }
        ensures within { IsWithin seat.old.me.0.known }
        ensures whole { seat.old.me.0.parts ≡ all_parts → IsWhole seat.old.me.0.known seat.new.me.0.known.seen }
        ensures kept { (seat.new.me.0.number ≡ seat.old.me.0.number) × (seat.new.me.0.parts ≡ seat.old.me.0.parts) }
    {
        let ticket = self.table.shared.fetch_add::<Draw<S>>(seat, NEXT, 1);
        let backoff = Backoff::new();
        for _ in rt.forever() {
            let served = self.table.shared.load::<Look<S>>(seat, SERVED);
            if served == ticket {
                let count = self.table.shared.load::<Count<S>>(seat, COUNT);
                let state = self.table.shared.exchange(seat, STATE, None);
                return (state, count);
            }
            backoff.snooze();
        }
        unreachable!()
    }

    /// Raises the count for the one entry that the state's history has beyond what was seen.
    pub(crate) fn raise_count(
        &self,
        seat: &mut TurnSeat<S, S::Entry>,
        count: u64,
        state: &Option<S>,
    )
        requires same { seat.old.table_id ≡ self.now.table.shared.table_id }
        requires held { HasTurn seat.old.me }
        requires count { (count ≡ length seat.old.me.0.known.seen) × (count + 1 < 2 ^ 64) }
        requires there { IsSome state.now }
        requires one { (e : S.Entry) × (history_of S.history state.now ≡ seat.old.me.0.known.seen ++ e ∷ []) }
        requires own { Belongs S.root seat.old.me.0.known.own (history_of S.history state.now) (length seat.old.me.0.known.seen) }
        ensures same { (seat.new.table_id ≡ seat.old.table_id) × (seat.new.id ≡ seat.old.id) }
        ensures seen { (seat.new.me.0 ≡ record seat.old.me.0 { known = known (history_of S.history state.now) (seat.old.me.0.known.own ++ length seat.old.me.0.known.seen ∷ []) }) × (seat.new.me.1 ≡ seat.old.me.1) }
    {
        self.table
            .shared
            .compare_exchange_with::<Record<S>>(seat, COUNT, count, count + 1, state);
    }

    /// Puts the state back into its slot, and passes the turn on.
    pub(crate) fn pass_on(&self, seat: &mut TurnSeat<S, S::Entry>, state: Option<S>)
        requires same { seat.old.table_id ≡ self.now.table.shared.table_id }
        requires held { HasTurn seat.old.me }
        requires there { IsSome state }
        requires history { history_of S.history state ≡ seat.old.me.0.known.seen }
        requires number { number_of S.number state ≡ seat.old.me.0.number }
        ensures same { (seat.new.table_id ≡ seat.old.table_id) × (seat.new.id ≡ seat.old.id) }
        ensures idle { (seat.new.me.0 ≡ record seat.old.me.0 { role = Idle }) × (seat.new.me.1 ≡ []) }
    {
        let away = self.table.shared.exchange(seat, STATE, state);
        let None = away else { unreachable!() };
        self.table.shared.fetch_add::<PassOn<S>>(seat, SERVED, 1);
    }

    /// A new seat with one part, which has seen what this one has, and is given the own places that are handed over.
    pub(crate) fn split_seat<H: Handing>(
        &self,
        seat: &mut TurnSeat<S, S::Entry>,
    ) -> TurnSeat<S, S::Entry>
        requires same { seat.old.table_id ≡ self.now.table.shared.table_id }
        requires idle { (seat.old.me.0.role ≡ Idle) × (seat.old.me.0.other ≡ nothing) × (1 < seat.old.me.0.parts) × (seat.old.id ≡ 0) }
        requires divided { Divides S.root seat.old.me.0.known (H.kept seat.old.me.0.known.own) (H.given seat.old.me.0.known.own) }
        ensures same { (seat.new.table_id ≡ seat.old.table_id) × (seat.new.id ≡ seat.old.id) × (seat.new.me ≡ (kept_view H.kept seat.old.me.0, seat.old.me.1)) }
        ensures given { (result.table_id ≡ seat.old.table_id) × (result.me ≡ (given_view H.given seat.old.me.0, [])) }
    {
        self.table.shared.split_seat::<Cut<H>>(seat)
    }

    /// Takes in what another seat knows, and its parts.
    pub(crate) fn join_seat(&self, seat: &mut TurnSeat<S, S::Entry>, other: TurnSeat<S, S::Entry>)
        requires same { (seat.old.table_id ≡ self.now.table.shared.table_id) × (other.table_id ≡ self.now.table.shared.table_id) }
        requires idle { (seat.old.me.0.role ≡ Idle) × (seat.old.me.0.other ≡ nothing) × (0 < seat.old.me.0.parts) × (seat.old.id ≡ 0) }
        requires other { (other.me.0.role ≡ Idle) × (other.me.0.other ≡ nothing) × (other.me.1 ≡ []) }
        ensures same { (seat.new.table_id ≡ seat.old.table_id) × (seat.new.id ≡ seat.old.id) }
        ensures joined { seat.new.me ≡ (record seat.old.me.0 { known = united seat.old.me.0.known other.me.0.known; parts = seat.old.me.0.parts + other.me.0.parts }, seat.old.me.1) }
        ensures grows { Grows S.root seat.old.me.0.known seat.new.me.0.known.seen × Grows S.root other.me.0.known seat.new.me.0.known.seen }
        ensures parts { seat.new.me.0.parts ≤ all_parts }
        ensures within { IsWithin seat.new.me.0.known }
    {
        self.table.shared.join_seat::<Glue>(seat, other);
        self.table.shared.load::<Merge<S>>(seat, COUNT);
    }

    /// Takes the table apart, and answers what was in its slot. The seat has all parts, so no other can have a ticket.
    pub(crate) fn take_apart(self, seat: TurnSeat<S, S::Entry>) -> Option<S>
        requires same { seat.table_id ≡ self.table.shared.table_id }
        requires idle { (seat.me.0.role ≡ Idle) × (seat.me.0.other ≡ nothing) × (seat.me.1 ≡ []) }
        requires all { seat.me.0.parts ≡ all_parts }
        ensures there { IsSome result }
        ensures whole { IsWhole seat.me.0.known (history_of S.history result) }
        ensures number { number_of S.number result ≡ S.number self.table.shared.key.value }
    {
        let Turn { table } = self;
        let mut closed = table.close_with(seat);
        let state = closed.take(0);
        closed.free();
        state
    }
}
