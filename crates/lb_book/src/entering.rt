// Queries: an entry of their own, and what stood before it.
ghost use Rattle.std.specs.Prelude.{◌≡◌, ◌⊎◌, ◌<◌, [], None, length, IfOk, OnOk, OnErr};
ghost use Rattle.lb_cat.specs.declared.entry.Entry.TheVariants as entries;
ghost use Rattle.lb_journal.specs.Journal.{FollowsSaid};
ghost use Rattle.lb_book.specs.Cached.{fronted, plan_of};
ghost use Rattle.lb_book.specs.Grown.{IsOfQuery, entered};

use crate::book::Book;
use crate::taken::{Begun, Prepared};
use lb_base::NoMemory;
use lb_cat::{Entry, Said};
use lb_journal::Engine;
use std::snapshot::Snapshot;
use std::sync::Arc;

impl<E: Engine> Book<E> {
    /// Adds the entry of a query, which changes nothing else, and gives its place with the catalogue and the rows before it, and the plan
    /// exactly where one is kept of its text. NoMemory where memory is refused, and then no entry is added.
    pub fn begin(&mut self, said: Said) -> Result<Begun<E>, NoMemory>
        requires room { 0 < self.old.spare }
        requires made { FollowsSaid self.old.journal said }
        requires query { IsOfQuery said.text }
        ensures ok { OnOk result (self.new ≡ record (entered (entries.Said said) self.old) { cache = fronted said.text self.old.cache }) }
        ensures err { OnErr result ((self.new ≡ self.old) ⊎ (self.new ≡ record self.old { cache = fronted said.text self.old.cache })) }
        ensures place { IfOk result (λ b. b.place ≡ length self.old.journal) }
        ensures taken { IfOk result (λ b. b.taken ≡ record { journal = self.old.journal; catalog = self.old.catalog; tables = self.old.tables; plan = plan_of said.text self.old.cache }) }
    {
        let taken = self.take()?;
        let place = self.enter(said);
        Ok(Begun { place, taken })
    }

    /// What stands, shared.
    fn take(&self) -> Result<Prepared<E>, NoMemory>
        ensures taken { IfOk result (λ p. p ≡ record { journal = self.now.journal; catalog = self.now.catalog; tables = self.now.tables; plan = None }) }
        ensures cache { self.now.cache ≡ [] }
    {
        let catalog = Arc::try_clone(&self.catalog)?;
        let tables = self.tables.copy()?;
        let seen = Snapshot::of(&self.journal);
        Ok(Prepared {
            catalog,
            tables,
            plan: None,
            seen,
        })
    }

    /// Adds the entry of a query.
    fn enter(&mut self, said: Said) -> u64
        requires room { 0 < self.old.spare }
        requires made { FollowsSaid self.old.journal said }
        requires query { IsOfQuery said.text }
        ensures entered { self.new ≡ entered (entries.Said said) self.old }
        ensures place { result ≡ length self.old.journal }
    {
        let place = self.journal.len() as u64;
        match self.journal.push(Entry::Said(said)) {
            Ok(()) => {}
            Err(_) => unreachable!(),
        }
        self.spare -= 1;
        place
    }
}
