// Look-ups by name in the store: the table, its rows, its columns.
ghost use Rattle.std.specs.Prelude.{◌≡◌, None, IfNone, IfSome};
ghost use Rattle.std.specs.Option.{option_copied};
ghost use Rattle.std.specs.List.{list_any};
ghost use Rattle.std.specs.Str.{bytes_eq};
ghost use Rattle.lb_model.specs.Catalog.{table_named, has_column, has_permission};
ghost use Rattle.lb_refr.specs.Found.{FoundTable, FoundVersion, NoVersion};

use lb_base::Name;
use lb_model::{ColumnRec, PermissionRec, TableRec, TableVersion};

/// The record of the table of that name.
pub fn table_of<'a>(tables: &'a [TableRec], name: &str) -> Option<&'a TableRec>
    ensures { option_copied result ≡ table_named name.now tables.now }
{
    for table in tables {
        if table.name.as_str() == name {
            return Some(table);
        }
    }
    None
}

/// Where the record of the table of that name stands.
pub fn place_of_table(tables: &[TableRec], name: &str) -> Option<usize>
    ensures none { IfNone result (table_named name.now tables.now ≡ None) }
    ensures found { IfSome result (FoundTable name.now tables.now) }
{
    for (i, table) in tables.iter().enumerate() {
        if table.name.as_str() == name {
            return Some(i);
        }
    }
    None
}

/// Where the rows of the table of that name stand.
pub fn place_of_version(versions: &[TableVersion], name: &str) -> Option<usize>
    ensures none { IfNone result (NoVersion name.now versions.now) }
    ensures found { IfSome result (FoundVersion name.now versions.now) }
{
    for (i, version) in versions.iter().enumerate() {
        if version.name.as_str() == name {
            return Some(i);
        }
    }
    None
}

/// Whether a column has that name.
pub fn is_column(name: &Name, columns: &[ColumnRec]) -> bool
    ensures { result ≡ has_column name.now columns.now }
{
    for column in columns {
        if column.name.is(name) {
            return true;
        }
    }
    false
}

/// Whether a permission of some table has that name.
pub fn is_permission(name: &Name, tables: &[TableRec]) -> bool
    ensures { result ≡ has_permission name.now tables.now }
{
    for table in tables {
        if is_among(name, table.permissions.as_slice()) {
            return true;
        }
    }
    false
}

fn is_among(name: &Name, permissions: &[PermissionRec]) -> bool
    ensures { result ≡ list_any (λ p. bytes_eq p.name name.now) permissions.now }
{
    for permission in permissions {
        if permission.name.is(name) {
            return true;
        }
    }
    false
}
