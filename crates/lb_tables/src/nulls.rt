// The rows of a table, each with a null more.
ghost use Rattle.std.specs.Prelude.{◌≡◌, ◌<◌, length, map, IfOk};
ghost use Rattle.std.specs.Arc.{arc_value};
ghost use Rattle.lb_rows.specs.Stamped.{rows_only};
ghost use Rattle.lb_rows.specs.Tables.{rows_of};
ghost use Rattle.lb_alter.specs.AlterTable as definitions;

use lb_base::{Listing, Name, NoMemory, Row, RowList, Value};
use lb_rows::{Snap, TableVersion};
use std::alloc::Global;
use std::sync::Arc;

/// How many rows the table has.
pub(crate) fn row_count(tables: &Snap, name: &Name) -> u32
    ensures { result ≡ length (rows_of name.now (rows_only tables.now)) }
{
    match tables.rows(name) {
        Some(version) => version.len(),
        None => 0,
    }
}

/// The rows of the table, each with a null more, under this name.
pub(crate) fn version_with_null(
    alloc: Global,
    tables: &Snap,
    name: &Name,
    under: &Name,
) -> Result<Arc<TableVersion>, NoMemory>
    ensures { IfOk result (λ v. arc_value v ≡ record { name = under.now; rows = map definitions.with_null (rows_of name.now (rows_only tables.now)) }) }
{
    let _count = row_count(tables, name);
    let rows = rows_with_null(alloc, tables, name)?;
    TableVersion::empty(alloc, under)?.with_rows(alloc, rows)
}

fn rows_with_null(alloc: Global, tables: &Snap, name: &Name) -> Result<RowList, NoMemory>
    ensures { IfOk result (λ rs. rs ≡ map definitions.with_null (rows_of name.now (rows_only tables.now))) }
{
    match tables.rows(name) {
        Some(version) => all_with_null(alloc, version),
        None => Ok(Listing::empty(alloc)),
    }
}

fn all_with_null(alloc: Global, version: &TableVersion) -> Result<RowList, NoMemory>
    ensures { IfOk result (λ rs. rs ≡ map definitions.with_null version.now.rows) }
{
    let mut rows = Listing::empty(alloc);
    for row in version.iter() {
        rows.push(with_null(alloc, row)?)?;
    }
    Ok(rows)
}

fn with_null(alloc: Global, row: &Row) -> Result<Row, NoMemory>
    ensures { IfOk result (λ r. r ≡ definitions.with_null row.now) }
{
    let mut longer = row.copy(alloc)?;
    longer.push(Value::Null)?;
    Ok(longer)
}
