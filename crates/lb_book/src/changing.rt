// Changes of the catalogue: made and published in one.
ghost use Rattle.std.specs.Prelude.{◌≡◌, ◌+◌, ◌<◌, true, length, IfOk, OnErr, option_map};
ghost use Rattle.std.specs.Arc.{arc_value};
ghost use Rattle.lb_cat.specs.declared.answer.Mark.TheVariants as marks;
ghost use Rattle.lb_cat.specs.declared.entry.Entry.TheVariants as entries;
ghost use Rattle.lb_journal.specs.Journal.{FollowsSaid, Speaks};
ghost use Rattle.lb_journal.specs.Told.{is_change};
ghost use Rattle.lb_book.specs.Grown.{Answers, entered};
ghost use Rattle.lb_rows.specs.Stamped.{rows_only};
ghost use Rattle.lb_settled.specs.Statements.{LeavesOf};
ghost use Rattle.lb_book.specs.Leaving.{IsTold, LeavesKept, left_stamped};

use crate::book::Book;
use crate::versions::leave;
use lb_base::{Key, NoMemory};
use lb_cat::{Answer, Catalog, Entry, Mark, Said};
use lb_changed::Changed;
use lb_journal::Engine;
use lb_rows::TableVersion;
use lb_settled::changes_tables;
use lb_stmt::Stmt;
use std::alloc::Global;
use std::sync::Arc;

impl<E: Engine> Book<E> {
    /// Makes a change of the catalogue, adds its entry, and publishes the catalogue and the rows that it leaves. The answer has the place of
    /// the entry, counted from 0, and the reply of that place; a refused change leaves catalogue and rows as they were. NoMemory where
    /// memory is refused, and then nothing has changed: all memory is taken before the entry.
    pub fn change(&mut self, alloc: Global, said: Said, stmt: &Stmt) -> Result<Answer, NoMemory>
        requires room { 0 < self.old.spare }
        requires made { FollowsSaid self.old.journal said }
        requires speaks { Speaks said.text stmt.now }
        requires kind { is_change stmt.now ≡ true }
        ensures answer { IfOk result (Answers self.old.journal self.new.journal said marks.Dash) }
        ensures limit { self.new.limit ≡ self.old.limit }
        ensures err { OnErr result (self.new ≡ self.old) }
    {
        self.facts();
        let changed = self.changed(alloc, &said, stmt)?;
        let catalog = Arc::new(alloc, changed.catalog)?;
        let place = self.publish(said, catalog, changed.table, changed.touched.as_slice());
        Ok(Answer {
            place: Some(place),
            mark: Mark::Dash,
            reply: changed.reply,
        })
    }

    /// What the change leaves, with the stamp of its entry on what it touches.
    fn changed(&self, alloc: Global, said: &Said, stmt: &Stmt) -> Result<Changed, NoMemory>
        requires made { FollowsSaid self.now.journal said.now }
        requires speaks { Speaks said.now.text stmt.now }
        requires kind { is_change stmt.now ≡ true }
        ensures { IfOk result (λ c. IsTold (length self.now.journal) self.now.catalog self.now.tables said.now stmt.now c) }
    {
        let stamp = self.journal.len() as u64 + 1;
        let mut changed = self.made(alloc, said, stmt)?;
        changed.catalog.mark(&changed.touched, stamp)?;
        Ok(changed)
    }

    /// What the change leaves, with the stamps that were.
    fn made(&self, alloc: Global, said: &Said, stmt: &Stmt) -> Result<Changed, NoMemory>
        requires kind { is_change stmt.now ≡ true }
        ensures { IfOk result (LeavesOf self.now.catalog (rows_only self.now.tables) said.now.user stmt.now) }
    {
        lb_standing::replays_are_standing();
        if changes_tables(stmt) {
            lb_ddl::change(alloc, &self.catalog, &self.tables, said, stmt)
        } else {
            lb_secddl::change(alloc, &self.catalog, &self.tables, said, stmt)
        }
    }

    /// Adds the entry of a change, and puts the catalogue and the rows that it leaves in their place.
    fn publish(
        &mut self,
        said: Said,
        catalog: Arc<Catalog>,
        table: Option<Arc<TableVersion>>,
        touched: &[Key],
    ) -> u64
        requires room { 0 < self.old.spare }
        requires made { FollowsSaid self.old.journal said }
        requires leaves { LeavesKept (length self.old.journal) self.old.catalog self.old.tables said (arc_value catalog) (left_stamped (length self.old.journal + 1) (option_map arc_value table) touched.now self.old.tables) }
        ensures entered { self.new ≡ record (entered (entries.Said said) self.old) { catalog = arc_value catalog; tables = left_stamped (length self.old.journal + 1) (option_map arc_value table) touched.now self.old.tables } }
        ensures place { result ≡ length self.old.journal }
    {
        lb_standing::replays_are_standing();
        let place = self.journal.len() as u64;
        match self.journal.push(Entry::Said(said)) {
            Ok(()) => {}
            Err(_) => unreachable!(),
        }
        self.spare -= 1;
        self.catalog = catalog;
        leave(&mut self.tables, table, touched, place + 1);
        place
    }
}
