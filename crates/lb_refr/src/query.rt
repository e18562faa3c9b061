// SELECT: the rows of a table that the user sees.
ghost use Rattle.std.specs.Prelude.{◌≡◌, IfOk};
ghost use Rattle.std.specs.List.{filter};
ghost use Rattle.lb_tree.specs.declared.query.Cond.TheViews.{out-Query};
ghost use Rattle.lb_model.specs.Catalog.{table_named, rows_of};
ghost use Rattle.lb_model.specs.Visible.{is_allowed, visible};
ghost use Rattle.lb_model.specs.Answer.{first_table, replied, select_from};

use crate::condition::is_row_allowed;
use crate::find::{place_of_version, table_of};
use crate::refused::unknown;
use lb_base::{Listing, Name, NoMemory, Row, RowList};
use lb_cat::Reply;
use lb_model::{TableRec, TableVersion};
use lb_tree::{Chain, Query};
use std::alloc::Global;

/// Answers a query of the user.
pub fn select(
    alloc: Global,
    user: &Name,
    query: &Query,
    tables: &[TableRec],
    versions: &[TableVersion],
) -> Result<Reply, NoMemory>
    ensures { let name = first_table (out-Query query.now).from in
        IfOk result (λ r. replied r ≡ select_from user.now name (table_named name tables.now) versions.now) }
{
    let name = table_in(query.from.as_slice());
    match table_of(tables, name) {
        None => unknown(alloc, name),
        Some(table) => {
            let rows = visible_rows(alloc, user, table, rows_in(versions, name))?;
            Ok(Reply::Rows(rows))
        }
    }
}

// The name of the table of FROM; a query without one names none.
fn table_in(from: &[Chain]) -> &str
    ensures { result.now ≡ first_table from.now }
{
    match from {
        [] => "",
        [chain, ..] => chain.first.table.as_str(),
    }
}

fn rows_in<'a>(versions: &'a [TableVersion], name: &str) -> &'a [Row]
    ensures { result.now ≡ rows_of name.now versions.now }
{
    match place_of_version(versions, name) {
        None => &[],
        Some(i) => versions[i].rows.as_slice(),
    }
}

// Row access control: all rows, or where it is active those that are allowed.
fn visible_rows(
    alloc: Global,
    user: &Name,
    table: &TableRec,
    rows: &[Row],
) -> Result<RowList, NoMemory>
    ensures { IfOk result (λ seen. seen ≡ visible user.now table.now rows.now) }
{
    if table.row_control {
        allowed_rows(alloc, user, table, rows)
    } else {
        all_rows(alloc, rows)
    }
}

fn allowed_rows(
    alloc: Global,
    user: &Name,
    table: &TableRec,
    rows: &[Row],
) -> Result<RowList, NoMemory>
    ensures { IfOk result (λ seen. seen ≡ filter (is_allowed user.now table.now) rows.now) }
{
    let mut seen = Listing::empty(alloc);
    for row in rows {
        if is_row_allowed(user, table, row.as_slice()) {
            seen.push(row.copy(alloc)?)?;
        }
    }
    Ok(seen)
}

fn all_rows(alloc: Global, rows: &[Row]) -> Result<RowList, NoMemory>
    ensures { IfOk result (λ seen. seen ≡ rows.now) }
{
    let mut seen = Listing::empty(alloc);
    for row in rows {
        seen.push(row.copy(alloc)?)?;
    }
    Ok(seen)
}
