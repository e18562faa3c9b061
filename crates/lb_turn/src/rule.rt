//! What a seat at the turn knows, and the kinds of step that it may take. `atomic_table` wants each as a type; none has a value.

use crate::standing::Standing;
use atomic_table::{Join, Play, Split, TableRule};
use std::collections::LinkedList;
use std::marker::PhantomData;
use std::snapshot::Snapshot;

/// Where a seat is in the queue for the turn.
pub enum Role {
    /// It has no ticket.
    Idle,
    /// It waits with this ticket.
    Waits(u64),
    /// This ticket of its own is served.
    Turns(u64),
}

/// A part of the history that was seen, and which places of it are the seat's own.
pub struct Known<N> {
    pub seen: LinkedList<N>,
    pub own: LinkedList<u64>,
}

/// What a seat knows. No value of it is made.
pub struct View<N> {
    pub role: Role,
    pub known: Known<N>,
    /// What a joined seat knew, until the longer list has been loaded.
    pub other: Known<N>,
    /// The turn's fixed number.
    pub number: u64,
    /// How many of the 65 parts it has; without one it draws no ticket.
    pub parts: u64,
}

/// The rule of the turn.
pub struct Ruled<S> {
    of: PhantomData<S>,
}

impl<S: Standing> TableRule<Option<S>, View<S::Entry>, Snapshot<S>> for Ruled<S> {
    ghost use Rattle.lb_turn.specs.Rule.{Turned, starting};

    ghost holds = { λ key. Turned S.history S.root S.number (S.number key.value) };

    ghost first = { λ key. starting (S.number key.value) };
}

/// A step that draws a ticket.
pub struct Draw<S> {
    of: PhantomData<S>,
}

impl<S: Standing> Play<Option<S>, View<S::Entry>> for Draw<S> {
    ghost use Rattle.lb_turn.specs.Steps.{Draws};

    ghost then = { Draws };
}

/// A step that looks at the number that is served.
pub struct Look<S> {
    of: PhantomData<S>,
}

impl<S: Standing> Play<Option<S>, View<S::Entry>> for Look<S> {
    ghost use Rattle.lb_turn.specs.Steps.{Looks};

    ghost then = { Looks S.history S.root S.number };
}

/// A step that loads the count of the history while the seat has its turn.
pub struct Count<S> {
    of: PhantomData<S>,
}

impl<S: Standing> Play<Option<S>, View<S::Entry>> for Count<S> {
    ghost use Rattle.lb_turn.specs.Steps.{Counts};

    ghost then = { Counts };
}

/// A step that loads the count while the seat keeps two lists.
pub struct Merge<S> {
    of: PhantomData<S>,
}

impl<S: Standing> Play<Option<S>, View<S::Entry>> for Merge<S> {
    ghost use Rattle.lb_turn.specs.Steps.{Merges};

    ghost then = { Merges S.root };
}

/// A step that records an entry.
pub struct Record<S> {
    of: PhantomData<S>,
}

impl<S: Standing> Play<Option<S>, View<S::Entry>> for Record<S> {
    ghost use Rattle.lb_turn.specs.Steps.{Records};

    ghost then = { Records S.history };
}

/// A step that passes the turn on.
pub struct PassOn<S> {
    of: PhantomData<S>,
}

impl<S: Standing> Play<Option<S>, View<S::Entry>> for PassOn<S> {
    ghost use Rattle.lb_turn.specs.Steps.{PassesOn};

    ghost then = { PassesOn };
}

/// How a split divides a seat's own places.
pub trait Handing {
    ghost use Rattle.std.specs.Prelude.{ℕ, List};

    // The own places that the seat keeps.
    ghost kept: { List ℕ → List ℕ };

    // The own places that the new seat is given.
    ghost given: { List ℕ → List ℕ };
}

/// The new seat is given no place.
pub struct HandsNone;

impl Handing for HandsNone {
    ghost use Rattle.std.specs.Prelude.{[]};

    ghost kept = { λ own. own };

    ghost given = { λ own. [] };
}

/// The new seat is given the last own place.
pub struct HandsLast;

impl Handing for HandsLast {
    ghost use Rattle.lb_turn.specs.Known.{last_of, before_last};

    ghost kept = { before_last };

    ghost given = { last_of };
}

/// A new seat gets one part, and the places that are handed over.
pub struct Cut<H> {
    of: PhantomData<H>,
}

impl<N, H: Handing> Split<View<N>> for Cut<H> {
    ghost use Rattle.lb_turn.specs.Steps.{kept_view, given_view};

    ghost left = { kept_view H.kept };

    ghost right = { given_view H.given };
}

/// A seat takes in the parts and the list of another, which is spent.
pub struct Glue;

impl<N> Join<View<N>> for Glue {
    ghost use Rattle.lb_turn.specs.Steps.{joined_view};
    ghost use Rattle.lb_turn.specs.Rule.{spent_view};

    ghost both = { joined_view };

    ghost spent = { spent_view };
}
