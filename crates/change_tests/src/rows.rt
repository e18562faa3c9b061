// The one statement that is no change: INSERT INTO table VALUES (n) gives the table n rows more, all of nulls.
ghost use Rattle.std.specs.Prelude.{OnOk};
ghost use Rattle.lb_trial.specs.Trials.{IsSoundKept};

use anyhow::{Context, Result, bail};
use lb_base::Name;
use lb_readable::readable;
use lb_stmt::{Insert, InsertSource, Stmt};
use lb_tree::{Atom, Expr};
use lb_trial::Trial;
use sqlite_items::Items;
use std::alloc::Global;

/// Gives a table the rows of the statement, and answers how many it has then.
pub fn added(alloc: Global, trial: &mut Trial, text: &[u8]) -> Result<u32>
    requires { IsSoundKept trial.old.catalog }
    ensures { OnOk result (IsSoundKept trial.new.catalog) }
{
    let read = readable(alloc, text).ok().context("reading an INSERT")?;
    match &read.stmt {
        Stmt::Insert(insert) => {
            let count = count_of(insert)?;
            let rows = trial.add_rows(alloc, &insert.table, count)?;
            rows.context("no such table")
        }
        _ => bail!("neither a change nor an INSERT"),
    }
}

/// The one number that is written.
fn count_of(insert: &Insert) -> Result<u32> {
    match &insert.source {
        InsertSource::Rows(rows) => number_in(rows.as_slice()).context("no number of rows"),
        InsertSource::Query(_) => bail!("an INSERT with a query"),
    }
}

fn number_in(rows: &[Items<Expr>]) -> Option<u32> {
    match rows.first()?.as_slice().first()? {
        Expr::Atom(Atom::Int(count)) => u32::try_from(*count).ok(),
        _ => None,
    }
}
