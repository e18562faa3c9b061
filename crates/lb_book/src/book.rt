// The book: what it holds, room for entries, sessions, and its entries one by one.
ghost use Rattle.std.specs.Prelude.{◌≡◌, ◌≢◌, ◌≤◌, ◌<◌, ◌^◌, ◌∷◌, [], ℕ, length, slice_get, IfOk, IfErr, OnOk, OnErr};
ghost use Rattle.std.specs.Option.{option_copied};
ghost use Rattle.lb_cat.specs.declared.entry.Entry.TheVariants as entries;
ghost use Rattle.lb_journal.specs.Journal.{opens};
ghost use Rattle.lb_book.specs.Grown.{entered};
ghost use Rattle.lb_book.specs.Stands.{Stands};
ghost use Rattle.lb_book.specs.declared.book.ReserveFault.TheVariants as faults;

use lb_base::{Name, Names, NoMemory};
use lb_cat::{Catalog, Entry};
use lb_journal::Engine;
use lb_rows::Snap;
use std::alloc::Global;
use std::marker::{Model, PhantomData};
use std::sync::Arc;

/// The journal, and the catalogue and the rows that it leaves, for an engine that runs queries and writes. No plan is kept yet.
#[derive(Drop)]
pub struct Book<E: Engine> {
    pub(crate) catalog: Arc<Catalog>,
    pub(crate) tables: Snap,
    pub(crate) journal: Vec<Entry>,
    pub(crate) limit: u64,
    pub(crate) spare: u64,
    opened: u32,
    engine: PhantomData<E>,
}

impl<E: Engine> Model for Book<E> {
    ghost use Rattle.std.specs.Prelude.{◌≡◌, ◌+◌, ◌≤◌, [], length, vec_capacity};
    ghost use Rattle.std.specs.Arc.{arc_value};
    ghost use Rattle.lb_journal.specs.Journal.{opens};
    ghost use Rattle.lb_book.specs.Content.{Content};
    ghost use Rattle.lb_book.specs.Stands.{Stands};

    ghost Value = { Content E.Plan };

    ghost use Rattle.std.specs.Coded.{codes};
    ghost use Rattle.lb_tree.specs.contracts.query.Cond as conditions;
    ghost use Rattle.lb_tree.specs.contracts.query.Expr as expressions;

    ghost coded = { Prim.hlevel (codes, conditions.the_row.coded, expressions.the_row.coded) };

    ghost view = { λ b. record { journal = b.journal.items; limit = b.limit; spare = b.spare; catalog = arc_value b.catalog; tables = b.tables; cache = [] } };

    ghost invariant = { λ b.
        Stands E.means E.takes (record { journal = b.journal.items; limit = b.limit; spare = b.spare; catalog = arc_value b.catalog; tables = b.tables; cache = [] })
        × (length b.journal.items + b.spare ≤ vec_capacity b.journal)
        × (b.opened ≡ opens b.journal.items) };
}

/// Why there is no room for an entry.
#[derive(Clone, Copy, Debug, PartialEq, Eq)]
pub enum ReserveFault {
    /// The journal has as many entries as it may have, which is this number.
    Full(u64),
    NoMemory,
}

impl<E: Engine> Book<E> {
    /// The book of a journal without entries, which may have `limit` of them, from 1 to 1,048,576. NoMemory where memory is refused.
    pub fn new(alloc: Global, limit: u64) -> Result<Book<E>, NoMemory>
        requires some { 1 ≤ limit }
        requires few { limit ≤ 2 ^ 20 }
        ensures { IfOk result (λ b. (b.journal ≡ []) × (b.limit ≡ limit) × (b.cache ≡ [])) }
    {
        let catalog = Arc::new(alloc, Catalog::first(alloc)?)?;
        Ok(Book {
            catalog,
            tables: Snap::empty(),
            journal: Vec::new(alloc),
            limit,
            spare: 0,
            opened: 0,
            engine: PhantomData,
        })
    }

    /// What the type keeps: the journal is well made and within its limit, and catalogue, rows and stamps are what it leaves.
    pub fn facts(&self)
        ensures { Stands E.means E.takes self.now }
    {
        let _ = &self.limit;
    }

    /// Makes room for one entry, which the calls that add an entry ask for. `Full` exactly where the journal has as many entries as it
    /// may have; NoMemory where memory is refused. After an error nothing has changed.
    pub fn reserve(&mut self) -> Result<(), ReserveFault>
        ensures room { OnOk result (0 < self.new.spare) }
        ensures below { OnOk result (length self.old.journal < self.old.limit) }
        ensures stays { self.new ≡ record self.old { spare = self.new.spare } }
        ensures err { OnErr result (self.new ≡ self.old) }
        ensures full { IfErr result (λ e. (n : ℕ) → e ≡ faults.Full n → (n ≡ self.old.limit) × (length self.old.journal ≡ n)) }
    {
        if self.journal.len() as u64 == self.limit {
            return Err(ReserveFault::Full(self.limit));
        }
        if self.spare == 0 {
            match self.journal.reserve(1) {
                Ok(()) => self.spare = 1,
                Err(_) => return Err(ReserveFault::NoMemory),
            }
        }
        Ok(())
    }

    /// Adds the opening of a session of the user with these groups, and gives the session's number, which is the count of sessions opened
    /// before it, and the place of its entry, counted from 0. It takes no memory.
    pub fn open(&mut self, user: Name, groups: Names) -> (u32, u64)
        requires room { 0 < self.old.spare }
        ensures number { result.0 ≡ opens self.old.journal }
        ensures place { result.1 ≡ length self.old.journal }
        ensures entered { self.new ≡ entered (entries.Open user groups) self.old }
    {
        let number = self.opened;
        let place = self.journal.len() as u64;
        match self.journal.push(Entry::Open(user, groups)) {
            Ok(()) => {}
            Err(_) => unreachable!(),
        }
        self.spare -= 1;
        self.opened += 1;
        (number, place)
    }

    /// How many entries the journal has.
    pub fn len(&self) -> u64
        ensures { result ≡ length self.now.journal }
    {
        self.journal.len() as u64
    }

    /// The entry at a place, counted from 0, and nothing exactly past the last one.
    pub fn entry(&self, place: u64) -> Option<&Entry>
        ensures { option_copied result ≡ slice_get self.now.journal place }
    {
        self.journal.get(place as usize)
    }

    /// The catalogue that stands.
    pub fn catalog(&self) -> &Catalog
        ensures { result.now ≡ self.now.catalog }
    {
        &self.catalog
    }

    /// The rows of all tables that stand.
    pub fn tables(&self) -> &Snap
        ensures { result.now ≡ self.now.tables }
    {
        &self.tables
    }
}
