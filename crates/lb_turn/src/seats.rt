//! How a turn is opened and closed, and how passes are split from its chief and joined again.
ghost use Rattle.std.specs.Prelude.{◌≡◌, ◌↔◌, ◌+◌, [], ◌++◌, IfOk, IfErr, OnOk, OnErr, IsErr};
ghost use Rattle.lb_turn.specs.declared.chief.SplitFault.TheVariants.{SeatsFull};
ghost use Rattle.lb_turn.specs.Known.{known, nothing, longer, last_of, before_last, IsWithin, IsWhole, Grows, IsLastRoot, Divides};
ghost use Rattle.lb_turn.specs.Passes.{IsChief, IsSplit, fixed_number, known_by, seen_by, own_by, pass_of, passes_of};

use crate::chief::{Chief, SEATS, SplitFault};
use crate::pass::Pass;
use crate::rule::{Handing, HandsLast, HandsNone};
use crate::standing::Standing;
use crate::turn::Turn;
use atomic_table::{Badge, Table};
use std::alloc::{AllocError as NoMemory, Global};
use std::mem;
use std::snapshot::Snapshot;

impl<S: Standing> Turn<S> {
    /// A turn over a state with an empty history, and its chief, who has seen nothing.
    ///
    /// # Errors
    ///
    /// `NoMemory`; the state is let go then.
    pub fn open(alloc: Global, state: S) -> Result<(Turn<S>, Chief<S::Entry>), NoMemory>
    where
        S: Drop,
        requires { S.history state ≡ [] }
        ensures number { IfOk result (λ t. fixed_number S.number t.0 ≡ S.number state) }
        ensures chief { IfOk result (λ t. IsChief S.number t.0 t.1) }
        ensures passes { IfOk result (λ t. passes_of t.1 ≡ 0) }
        ensures known { IfOk result (λ t. known_by (pass_of t.1) ≡ nothing) }
    {
        let key = Snapshot::of(&state);
        let mut slots = Vec::new(alloc);
        slots.push(Some(state))?;
        let Ok((table, seat)) = Table::new(alloc, &[0, 0, 0], slots, &key) else {
            return Err(NoMemory);
        };
        let pass = Pass {
            badge: seat.into_badge(),
        };
        Ok((Turn { table }, Chief { pass, passes: 0 }))
    }

    /// A new pass, which has seen what the chief has, and has no own places. Takes no memory.
    ///
    /// # Errors
    ///
    /// `SeatsFull(64)` where 64 passes are live beside the chief's own; nothing has changed then.
    pub fn split(&self, chief: &mut Chief<S::Entry>) -> Result<Pass<S::Entry>, SplitFault>
        requires { IsChief S.number self.now chief.old }
        ensures full { IsErr result ↔ (passes_of chief.old ≡ 64) }
        ensures fault { IfErr result (λ f. f ≡ SeatsFull 64) }
        ensures err { OnErr result (chief.new ≡ chief.old) }

        ensures pass { IfOk result (λ p. IsSplit S.number self.now p) }
        ensures known { IfOk result (λ p. known_by p ≡ known (seen_by (pass_of chief.old)) []) }
        ensures chief { IsChief S.number self.now chief.new }
        ensures passes { OnOk result (passes_of chief.new ≡ passes_of chief.old + 1) }
        ensures kept { known_by (pass_of chief.new) ≡ known_by (pass_of chief.old) }
    {
        self.split_by::<HandsNone>(chief)
    }

    /// A new pass, which has seen what the chief has, and is given the chief's last own place, if there is one. The chief
    /// keeps its other own places. Takes no memory.
    ///
    /// The last own place has to be its own root.
    ///
    /// # Errors
    ///
    /// `SeatsFull(64)` where 64 passes are live beside the chief's own; nothing has changed then.
    pub fn split_last(&self, chief: &mut Chief<S::Entry>) -> Result<Pass<S::Entry>, SplitFault>
        requires chief { IsChief S.number self.now chief.old }
        requires root { IsLastRoot S.root (known_by (pass_of chief.old)) }
        ensures full { IsErr result ↔ (passes_of chief.old ≡ 64) }
        ensures fault { IfErr result (λ f. f ≡ SeatsFull 64) }
        ensures err { OnErr result (chief.new ≡ chief.old) }

        ensures pass { IfOk result (λ p. IsSplit S.number self.now p) }
        ensures known { IfOk result (λ p. known_by p ≡ known (seen_by (pass_of chief.old)) (last_of (own_by (pass_of chief.old)))) }
        ensures chief { IsChief S.number self.now chief.new }
        ensures passes { OnOk result (passes_of chief.new ≡ passes_of chief.old + 1) }
        ensures kept { OnOk result (known_by (pass_of chief.new) ≡ known (seen_by (pass_of chief.old)) (before_last (own_by (pass_of chief.old)))) }
        ensures divided { IfOk result (λ p. Divides S.root (known_by (pass_of chief.old)) (own_by (pass_of chief.new)) (own_by p)) }
    {
        self.split_by::<HandsLast>(chief)
    }

    /// A new pass, which has seen what the chief has, and is given those of the chief's own places that are handed over.
    fn split_by<H: Handing>(
        &self,
        chief: &mut Chief<S::Entry>,
    ) -> Result<Pass<S::Entry>, SplitFault>
        requires chief { IsChief S.number self.now chief.old }
        requires divided { Divides S.root (known_by (pass_of chief.old)) (H.kept (own_by (pass_of chief.old))) (H.given (own_by (pass_of chief.old))) }
        ensures full { IsErr result ↔ (passes_of chief.old ≡ 64) }
        ensures fault { IfErr result (λ f. f ≡ SeatsFull 64) }
        ensures err { OnErr result (chief.new ≡ chief.old) }

        ensures pass { IfOk result (λ p. IsSplit S.number self.now p) }
        ensures known { IfOk result (λ p. known_by p ≡ known (seen_by (pass_of chief.old)) (H.given (own_by (pass_of chief.old)))) }
        ensures chief { IsChief S.number self.now chief.new }
        ensures passes { OnOk result (passes_of chief.new ≡ passes_of chief.old + 1) }
        ensures kept { OnOk result (known_by (pass_of chief.new) ≡ known (seen_by (pass_of chief.old)) (H.kept (own_by (pass_of chief.old)))) }
    {
        if chief.passes == SEATS {
            return Err(SplitFault::SeatsFull(SEATS));
        }
        let badge = mem::replace(&mut chief.pass.badge, Badge::blank());
        let mut seat = badge.into_seat::<Option<S>>();
        let given = self.split_seat::<H>(&mut seat);
        chief.pass.badge = seat.into_badge();
        chief.passes += 1;
        Ok(Pass {
            badge: given.into_badge(),
        })
    }

    /// Takes an idle pass back. The chief has then seen the longer of both lists, and the pass's own places are the
    /// chief's. Takes no memory.
    pub fn join(&self, chief: &mut Chief<S::Entry>, pass: Pass<S::Entry>)
        requires chief { IsChief S.number self.now chief.old }
        requires pass { IsSplit S.number self.now pass }
        ensures chief { IsChief S.number self.now chief.new }
        ensures passes { passes_of chief.new + 1 ≡ passes_of chief.old }

        ensures seen { seen_by (pass_of chief.new) ≡ longer (seen_by (pass_of chief.old)) (seen_by pass) }
        ensures own { own_by (pass_of chief.new) ≡ own_by (pass_of chief.old) ++ own_by pass }
        ensures chief_grows { Grows S.root (known_by (pass_of chief.old)) (seen_by (pass_of chief.new)) }
        ensures pass_grows { Grows S.root (known_by pass) (seen_by (pass_of chief.new)) }
        ensures within { IsWithin (known_by (pass_of chief.new)) }
    {
        let badge = mem::replace(&mut chief.pass.badge, Badge::blank());
        let mut seat = badge.into_seat::<Option<S>>();
        let Pass { badge } = pass;
        self.join_seat(&mut seat, badge.into_seat::<Option<S>>());
        chief.pass.badge = seat.into_badge();
        chief.passes -= 1;
    }

    /// The state, once no pass is live beside the chief's. Its history is what the chief has seen, and each place of it is
    /// the chief's own.
    pub fn close(self, chief: Chief<S::Entry>) -> S
        requires chief { IsChief S.number self chief }
        requires alone { passes_of chief ≡ 0 }
        ensures whole { IsWhole (known_by (pass_of chief)) (S.history result) }
        ensures number { S.number result ≡ fixed_number S.number self }
    {
        let Chief {
            pass: Pass { badge },
            passes: _,
        } = chief;
        let seat = badge.into_seat::<Option<S>>();
        match self.take_apart(seat) {
            Some(state) => state,
            None => unreachable!(),
        }
    }
}
