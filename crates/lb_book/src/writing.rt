// Writes: run and committed in one.
ghost use Rattle.std.specs.Prelude.{◌≡◌, ◌+◌, ◌⊎◌, ◌<◌, false, length, IfOk, OnErr, IsTrue, option_map};
ghost use Rattle.std.specs.Arc.{arc_value};
ghost use Rattle.lb_cat.specs.declared.answer.Mark.TheVariants as marks;
ghost use Rattle.lb_cat.specs.declared.entry.Entry.TheVariants as entries;
ghost use Rattle.lb_cat.specs.Stamps.{bare};
ghost use Rattle.lb_journal.specs.Engine.{Gives};
ghost use Rattle.lb_journal.specs.Journal.{FollowsSaid, Speaks};
ghost use Rattle.lb_journal.specs.Told.{is_change};
ghost use Rattle.lb_book.specs.Cached.{fronted};
ghost use Rattle.lb_book.specs.Grown.{Answers, entered, put_stamped};
ghost use Rattle.lb_book.specs.Leaving.{IsWritten, given_to};

use crate::asking::{Asking, Over, outcome};
use crate::book::Book;
use crate::versions::put;
use lb_base::NoMemory;
use lb_cat::{Answer, Entry, Mark, Said};
use lb_journal::{Engine, Outcome};
use lb_rows::TableVersion;
use lb_stmt::Stmt;
use std::alloc::Global;
use std::sync::Arc;

impl<E: Engine> Book<E> {
    /// Runs a write over what stands, and adds its entry, with the rows that it leaves. The answer has the place of the entry, counted from
    /// 0, and the reply of that place. NoMemory where memory is refused, and then no entry is added and nothing is written: all memory is
    /// taken before the entry.
    pub fn commit_here(
        &mut self,
        alloc: Global,
        said: Said,
        stmt: &Stmt,
    ) -> Result<Answer, NoMemory>
        requires room { 0 < self.old.spare }
        requires made { FollowsSaid self.old.journal said }
        requires speaks { Speaks said.text stmt.now }
        requires kind { is_change stmt.now ≡ false }
        requires built { IsTrue (E.builds (bare self.old.catalog) stmt.now) }
        ensures answer { IfOk result (Answers self.old.journal self.new.journal said marks.Compiled) }
        ensures limit { self.new.limit ≡ self.old.limit }
        ensures err { OnErr result ((self.new ≡ self.old) ⊎ (self.new ≡ record self.old { cache = fronted said.text self.old.cache })) }
    {
        self.facts();
        let Outcome { reply, table } = self.run(alloc, &said, stmt)?;
        let place = self.commit(said, table);
        Ok(Answer {
            place: Some(place),
            mark: Mark::Compiled,
            reply,
        })
    }

    /// What the statement is answered over what stands.
    fn run(&self, alloc: Global, said: &Said, stmt: &Stmt) -> Result<Outcome, NoMemory>
        requires made { FollowsSaid self.now.journal said.now }
        requires speaks { Speaks said.now.text stmt.now }
        requires kind { is_change stmt.now ≡ false }
        requires built { IsTrue (E.builds (bare self.now.catalog) stmt.now) }
        ensures { IfOk result (λ o. Gives o (given_to self.now.catalog self.now.tables said.now stmt.now)) }
    {
        let over = Over {
            catalog: &self.catalog,
            tables: &self.tables,
        };
        let asking = Asking {
            user: &said.user,
            groups: &said.groups,
            day: said.day,
        };
        outcome::<E>(alloc, over, asking, stmt)
    }

    /// Adds the entry of a write, with the rows that it leaves.
    fn commit(&mut self, said: Said, table: Option<Arc<TableVersion>>) -> u64
        requires room { 0 < self.old.spare }
        requires made { FollowsSaid self.old.journal said }
        requires written { IsWritten self.old.catalog self.old.tables said (option_map arc_value table) }
        ensures entered { self.new ≡ record (entered (entries.Said said) self.old) { tables = put_stamped (length self.old.journal + 1) (option_map arc_value table) self.old.tables } }
        ensures place { result ≡ length self.old.journal }
    {
        lb_standing::replays_are_standing();
        let place = self.journal.len() as u64;
        match self.journal.push(Entry::Said(said)) {
            Ok(()) => {}
            Err(_) => unreachable!(),
        }
        self.spare -= 1;
        put(&mut self.tables, table, place + 1);
        place
    }
}
