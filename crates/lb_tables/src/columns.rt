// The columns of a table: finding one, and copies with one changed.
ghost use Rattle.std.specs.Prelude.{if◌then◌else◌, ◌≡◌, find, option_map, IfOk};
ghost use Rattle.std.specs.Option.{option_copied};
ghost use Rattle.lb_cat.specs.Catalog.{is_column};
ghost use Rattle.lb_alter.specs.AlterTable as definitions;

use lb_base::{Listing, Name, NoMemory};
use lb_cat::{ColumnRec, ColumnRecs, Copied};
use std::alloc::Global;

/// The column of that name, and nothing exactly where there is none.
pub(crate) fn column_named<'a>(columns: &'a [ColumnRec], name: &Name) -> Option<&'a ColumnRec>
    ensures { option_copied result ≡ find (is_column name.now) columns.now }
{
    for column in columns {
        if column.name.is(name) {
            return Some(column);
        }
    }
    None
}

/// Copies of the columns, where the one of that name has this label, or none.
pub(crate) fn columns_secured(
    alloc: Global,
    columns: &[ColumnRec],
    name: &Name,
    label: Option<&Name>,
) -> Result<ColumnRecs, NoMemory>
    ensures { IfOk result (λ cs. cs ≡ definitions.change_column (definitions.secure (option_map (λ l. l.now) label.entry)) name.now columns.now) }
{
    let mut changed = Listing::empty(alloc);
    for column in columns {
        changed.push(column_secured(alloc, column, name, label)?)?;
    }
    Ok(changed)
}

fn column_secured(
    alloc: Global,
    column: &ColumnRec,
    name: &Name,
    label: Option<&Name>,
) -> Result<ColumnRec, NoMemory>
    ensures { IfOk result (λ c. c ≡ (if is_column name.now column.now then definitions.secure (option_map (λ l. l.now) label.entry) column.now else column.now)) }
{
    if !column.name.is(name) {
        return column.copy(alloc);
    }
    let name = column.name.copy()?;
    let ty = column.ty.copy()?;
    let secured = copy_of(label)?;
    Ok(ColumnRec {
        name,
        ty,
        not_null: column.not_null,
        secured,
    })
}

fn copy_of(name: Option<&Name>) -> Result<Option<Name>, NoMemory>
    ensures { IfOk result (λ n. n ≡ option_map (λ m. m.now) name.entry) }
{
    match name {
        Some(name) => {
            let name = name.copy()?;
            Ok(Some(name))
        }
        None => Ok(None),
    }
}
