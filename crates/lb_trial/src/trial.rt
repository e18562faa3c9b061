// Statements that are tried one after the other.
ghost use Rattle.std.specs.Prelude.{◌≡◌, true, IfOk, OnOk};
ghost use Rattle.lb_rows.specs.Stamped.{rows_only};
ghost use Rattle.lb_journal.specs.Told.{is_change};
ghost use Rattle.lb_settled.specs.Statements.{LeavesOf};
ghost use Rattle.lb_tok.specs.Spelled.{IsSpoken};
ghost use Rattle.lb_trial.specs.Trials.{IsSoundKept};

use crate::fault::Fault;
use lb_base::{Key, Listing, Name, NoMemory, Row, RowList, Str, Value};
use lb_cat::{Catalog, Reply, Said};
use lb_changed::Changed;
use lb_readable::{Readable, readable};
use lb_rows::{Snap, TABLE_LIMIT, TableVersion};
use lb_settled::changes_tables;
use lb_stmt::Stmt;
use std::alloc::Global;
use std::sync::Arc;

/// What stands after some statements.
#[derive(Drop)]
pub struct Trial {
    pub catalog: Catalog,
    /// The rows of all tables.
    pub tables: Snap,
    /// How many statements were tried, refused ones as well.
    pub place: u64,
}

impl Trial {
    /// What stands before the first statement: the user SECADMIN, and no table.
    pub fn first(alloc: Global) -> Result<Trial, NoMemory>
        ensures sound { IfOk result (λ t. IsSoundKept t.catalog) }
    {
        lb_alter::first_is_sound();
        let catalog = Catalog::first(alloc)?;
        Ok(Trial {
            catalog,
            tables: Snap::empty(),
            place: 0,
        })
    }

    /// What the text, which is to be a change of the catalogue, leaves as a statement of the user. Nothing of it stands yet.
    pub fn changed(&self, alloc: Global, user: &Name, text: &[u8]) -> Result<Changed, Fault>
        requires sound { IsSoundKept self.now.catalog }
        ensures sound { IfOk result (λ m. IsSoundKept m.catalog) }
    {
        let Readable { stmt, text } = readable(alloc, text)?;
        let said = self.said(alloc, user, text)?;
        self.left_by(alloc, &said, &stmt)
    }

    /// The statement, as a journal would have it.
    fn said(&self, alloc: Global, user: &Name, text: Str) -> Result<Said, NoMemory> {
        let user = user.copy()?;
        Ok(Said {
            session: 0,
            number: 0,
            user,
            groups: Listing::empty(alloc),
            day: 0,
            text,
        })
    }

    fn left_by(&self, alloc: Global, said: &Said, stmt: &Stmt) -> Result<Changed, Fault>
        requires sound { IsSoundKept self.now.catalog }
        requires spoken { IsSpoken stmt.now }
        ensures sound { IfOk result (λ m. IsSoundKept m.catalog) }
    {
        lb_spoken::spoken_changes_are_as_read();
        match stmt {
            Stmt::Change(_) => {
                let changed = self.made(alloc, said, stmt)?;
                Ok(changed)
            }
            _ => Err(Fault::NoChange),
        }
    }

    fn made(&self, alloc: Global, said: &Said, stmt: &Stmt) -> Result<Changed, NoMemory>
        requires sound { IsSoundKept self.now.catalog }
        requires kind { is_change stmt.now ≡ true }
        ensures left { IfOk result (LeavesOf self.now.catalog (rows_only self.now.tables) said.now.user stmt.now) }
    {
        if changes_tables(stmt) {
            lb_ddl::change(alloc, &self.catalog, &self.tables, said, stmt)
        } else {
            lb_secddl::change(alloc, &self.catalog, &self.tables, said, stmt)
        }
    }

    /// The stamp of a key in what a statement left, before the statement's own stamp is given: 0 where its record is new or gone. Of rows
    /// it is the one that they had.
    pub fn stamp(&self, changed: &Changed, key: &Key) -> u64 {
        match key {
            Key::Rows(table) => self.tables.stamp(table),
            _ => changed.catalog.look(key),
        }
    }

    /// What a statement left stands, and what it touched has the statement's stamp: one more than its place. Answers its reply.
    pub fn keep(&mut self, changed: Changed) -> Result<Reply, Fault>
        requires sound { IsSoundKept changed.catalog }
        ensures sound { OnOk result (IsSoundKept self.new.catalog) }
    {
        let Changed {
            mut catalog,
            table,
            touched,
            reply,
        } = changed;
        self.place = self.place.saturating_add(1);
        catalog.mark(&touched, self.place)?;
        self.catalog = catalog;
        self.leave(table, touched.as_slice())?;
        Ok(reply)
    }

    /// Puts the new version in its table's place, or where there is none takes the rows away that are touched.
    fn leave(&mut self, table: Option<Arc<TableVersion>>, touched: &[Key]) -> Result<(), Fault>
        ensures same { self.new.catalog ≡ self.old.catalog }
    {
        match table {
            Some(version) => self.put(version),
            None => {
                self.drop_rows(touched);
                Ok(())
            }
        }
    }

    fn put(&mut self, version: Arc<TableVersion>) -> Result<(), Fault>
        ensures same { self.new.catalog ≡ self.old.catalog }
    {
        let is_there = self.tables.version(version.name()).is_some();
        if !is_there && self.tables.len() >= TABLE_LIMIT {
            return Err(Fault::ManyTables);
        }
        self.tables.put(version, self.place);
        Ok(())
    }

    /// Takes away the rows of tables that are touched and have none any more.
    fn drop_rows(&mut self, touched: &[Key])
        ensures same { self.new.catalog ≡ self.old.catalog }
    {
        for key in touched {
            if let Key::Rows(table) = key {
                self.tables.remove(table);
            }
        }
    }

    /// Adds so many rows of nulls to the table, as a write that touches its rows. Answers how many rows it has then, and none where there
    /// is no such table.
    pub fn add_rows(
        &mut self,
        alloc: Global,
        table: &Name,
        count: u32,
    ) -> Result<Option<u32>, Fault>
        requires sound { IsSoundKept self.old.catalog }
        ensures sound { OnOk result (IsSoundKept self.new.catalog) }
    {
        let Some(version) = self.with_more_rows(alloc, table, count)? else {
            return Ok(None);
        };
        let rows = version.len();
        self.place = self.place.saturating_add(1);
        self.put(version)?;
        Ok(Some(rows))
    }

    fn with_more_rows(
        &self,
        alloc: Global,
        table: &Name,
        count: u32,
    ) -> Result<Option<Arc<TableVersion>>, Fault> {
        let (Some(rec), Some(version)) = (self.catalog.table(table), self.tables.version(table))
        else {
            return Ok(None);
        };
        let rows = rows_of_nulls(alloc, count, rec.columns.len())?;
        if version.len() > 100_000_000 || rows.len() > 100_000_000 {
            return Err(Fault::ManyRows);
        }
        let version = version.with_appended(alloc, rows)?;
        Ok(Some(version))
    }
}

fn rows_of_nulls(alloc: Global, count: u32, columns: usize) -> Result<RowList, NoMemory> {
    let mut rows = Listing::empty(alloc);
    for _ in 0..count {
        rows.push(row_of_nulls(alloc, columns)?)?;
    }
    Ok(rows)
}

fn row_of_nulls(alloc: Global, columns: usize) -> Result<Row, NoMemory> {
    let mut row = Listing::empty(alloc);
    for _ in 0..columns {
        row.push(Value::Null)?;
    }
    Ok(row)
}
