// The limits on tables and rows past which a statement is not run.
ghost use Rattle.std.specs.Prelude.{◌≡◌, ◌+◌, ◌*◌, ◌&&◌, ◌||◌, not, nat_lt, length, is_some};
ghost use Rattle.std.specs.List.{list_any};
ghost use Rattle.lb_model.specs.Catalog.{table_named, rows_of};
ghost use Rattle.lb_model.specs.NotYet.{is_too_wide, fits, is_insert_unbuilt, most_cells};

use crate::condition::are_rows_insertable;
use crate::find::{place_of_version, table_of};
use lb_base::{Name, Row, Ty, Value};
use lb_model::{ColumnRec, TableRec, TableVersion};

/// The most tables that a catalogue has.
const MOST_TABLES: usize = 64;

/// The most cells, rows times columns, that a table has.
const MOST_CELLS: usize = 131072;

/// Whether another table of that name would be one too many.
pub fn is_table_too_many(name: &Name, tables: &[TableRec]) -> bool
    ensures { result ≡ (not (is_some (table_named name.now tables.now)) && nat_lt 63 (length tables.now)) }
{
    table_of(tables, name.as_str()).is_none() && tables.len() >= MOST_TABLES
}

/// Whether the rows do not fit the columns of the table, or may be inserted and would be too many for it.
pub fn are_rows_too_many(
    user: &Name,
    name: &Name,
    rows: &[Row],
    tables: &[TableRec],
    versions: &[TableVersion],
) -> bool
    ensures { result ≡ is_insert_unbuilt user.now (table_named name.now tables.now) (rows_of name.now versions.now) rows.now }
{
    let Some(table) = table_of(tables, name.as_str()) else {
        return false;
    };
    let columns = table.columns.as_slice();
    has_unfit_row(columns, rows)
        || (are_rows_insertable(user, table, rows)
            && is_over_cells(
                number_of_rows(versions, name.as_str()),
                rows.len(),
                columns.len(),
            ))
}

fn has_unfit_row(columns: &[ColumnRec], rows: &[Row]) -> bool
    ensures { result ≡ list_any (λ row. not (fits columns.now row)) rows.now }
{
    for row in rows {
        if !is_fit(columns, row.as_slice()) {
            return true;
        }
    }
    false
}

// Whether the row has a value for each column, and no text is longer than its column takes.
fn is_fit(columns: &[ColumnRec], row: &[Value]) -> bool
    ensures { result ≡ fits columns.now row.now }
{
    for (i, column) in columns.iter().enumerate() {
        let Some(value) = row.get(i) else {
            return false;
        };
        if is_wider(value, &column.ty) {
            return false;
        }
    }
    row.get(columns.len()).is_none()
}

fn is_wider(value: &Value, ty: &Ty) -> bool
    ensures { result ≡ is_too_wide ty.now value.now }
{
    match (ty, value) {
        (Ty::Text(width), Value::Text(text)) => text.as_str().len() > *width as usize,
        _ => false,
    }
}

fn number_of_rows(versions: &[TableVersion], name: &str) -> usize
    ensures { result ≡ length (rows_of name.now versions.now) }
{
    match place_of_version(versions, name) {
        None => 0,
        Some(i) => versions[i].rows.len(),
    }
}

// A sum or a product that is too large for its type is over the limit too.
fn is_over_cells(old: usize, more: usize, columns: usize) -> bool
    ensures { result ≡ nat_lt most_cells ((old + more) * columns) }
{
    old.saturating_add(more).saturating_mul(columns) > MOST_CELLS
}
