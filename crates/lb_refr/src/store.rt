// The catalogue and the rows that stand.
ghost use Rattle.std.specs.Prelude.{◌≡◌, ◌↔◌, [], IsTrue, IfOk, OnErr};
ghost use Rattle.lb_model.specs.NotYet.{IsUnbuilt, rows_given, goes_past};

use crate::change::run_change;
use crate::insert::insert;
use crate::limits::{are_rows_too_many, is_table_too_many};
use crate::query::select;
use crate::small::{is_secadmin, is_small};
use lb_base::{Listing, Name, NoMemory, RowList};
use lb_cat::Reply;
use lb_model::{TableRec, TableVersion};
use lb_stmt::{Change, Stmt};
use std::alloc::Global;
use std::marker::Model;

/// The catalogue and the rows that stand.
#[derive(Drop)]
pub struct Store {
    tables: Vec<TableRec>,
    versions: Vec<TableVersion>,
}

impl Model for Store {
    ghost use Rattle.std.specs.Coded.{codes};
    ghost use Rattle.lb_tree.specs.contracts.query.Cond as conds;
    ghost use Rattle.lb_refr.specs.Stored.{Stored};

    ghost Value = { Stored };

    ghost coded = { Prim.hlevel (codes, conds.the_row.coded) };

    ghost view = { λ s. record { cat = record { tables = s.tables.items }; tables = s.versions.items } };
}

impl Store {
    ghost use Rattle.lb_refr.specs.Stored.{Ran};

    /// The catalogue without tables, and no rows. It takes no memory yet.
    pub fn empty(alloc: Global) -> Store
        ensures { result ≡ record { cat = record { tables = [] }; tables = [] } }
    {
        Store {
            tables: Vec::new(alloc),
            versions: Vec::new(alloc),
        }
    }

    /// Whether the statement of the user is not built yet: it is of another form than the five small ones, or the user is not
    /// SECADMIN, or it goes past a limit, since it would make the 65th table, or `rows`, those that it gives, do not fit its
    /// table, or may be inserted and would leave it with more than 131,072 values.
    pub fn is_unbuilt(&self, user: &Name, stmt: &Stmt, rows: &RowList) -> bool
        requires given { rows.now ≡ rows_given stmt.now }
        ensures { IsTrue result ↔ IsUnbuilt self.now.cat self.now.tables user.now stmt.now }
    {
        !is_small(stmt) || !is_secadmin(user) || self.goes_past(user, stmt, rows)
    }

    // Whether the statement would make the 65th table, or the rows are not built.
    fn goes_past(&self, user: &Name, stmt: &Stmt, rows: &RowList) -> bool
        requires given { rows.now ≡ rows_given stmt.now }
        ensures { result ≡ goes_past self.now.cat self.now.tables user.now stmt.now }
    {
        match stmt {
            Stmt::Change(Change::CreateTable(name, _, _)) => is_table_too_many(name, &self.tables),
            Stmt::Insert(insert) => are_rows_too_many(
                user,
                &insert.table,
                rows.as_slice(),
                &self.tables,
                &self.versions,
            ),
            _ => false,
        }
    }

    /// Runs a query, a write or a change of the user; `rows` are those that the statement gives.
    /// `Err` where memory runs out; catalogue and rows are then as they were.
    pub fn run(
        &mut self,
        alloc: Global,
        user: &Name,
        stmt: &Stmt,
        rows: RowList,
    ) -> Result<Reply, NoMemory>
        requires given { rows ≡ rows_given stmt.now }
        ensures ok { IfOk result (Ran self.old self.new user.now stmt.now) }
        ensures err { OnErr result (self.new ≡ self.old) }
    {
        match stmt {
            Stmt::Select(query) => {
                select(alloc, user, &query.query, &self.tables, &self.versions)
            }
            Stmt::Insert(write) => insert(
                alloc,
                user,
                &write.table,
                rows,
                &self.tables,
                &mut self.versions,
            ),
            Stmt::Change(change) => {
                run_change(alloc, user, change, &mut self.tables, &mut self.versions)
            }
            Stmt::Update(_) | Stmt::Delete(_) => Ok(Reply::Rows(Listing::empty(alloc))),
        }
    }
}
