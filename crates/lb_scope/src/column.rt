// What a column's name means among the FROM items in sight.
ghost use Rattle.std.specs.Prelude.{◌≡◌, ◌<◌, suc, length, drop, map};
ghost use Rattle.std.specs.List.{list_any};
ghost use Rattle.std.specs.Option.{option_copied, option_map};
ghost use Rattle.std.specs.Str.{bytes_eq};
ghost use Rattle.lb_names.specs.Scopes as scopes;
ghost use Rattle.lb_alter.specs.Naming.{field_of};
ghost use Rattle.lb_scope.specs.Found.{catalogue, meaning_in};

use crate::from::correlation;
use lb_base::Name;
use lb_cat::{Catalog, ColumnRec};
use lb_names::Seen;
use lb_tree::{Column, Tab};

/// What a column's name means. The column is lent by the catalogue, so it outlives what is in sight.
#[derive(Clone, Copy)]
pub enum Meaning<'s, 'c> {
    /// The FROM item, and its column.
    Found(&'s Seen, &'c ColumnRec),
    /// The name that is unknown: the column's, or its correlation name.
    Unknown(&'s Name),
}

/// Whether there is a table of that name.
pub fn has_table(catalog: &Catalog, name: &Name) -> bool
    ensures { result ≡ scopes.is_some ((catalogue catalog.now).columns name.now) }
{
    catalog.table(name).is_some()
}

/// The columns of the table of that name, none where there is no such table.
pub fn columns_in<'a>(catalog: &'a Catalog, table: &Name) -> &'a [ColumnRec]
    ensures { map field_of result.now ≡ scopes.listed ((catalogue catalog.now).columns table.now) }
{
    match catalog.table(table) {
        Some(table) => table.columns.as_slice(),
        None => &[],
    }
}

/// The columns of an item's table, none where there is no such table.
pub fn columns_of<'a>(catalog: &'a Catalog, tab: &Tab) -> &'a [ColumnRec]
    ensures { map field_of result.now ≡ scopes.columns_of (catalogue catalog.now) tab.now }
{
    columns_in(catalog, &tab.table)
}

/// The column of that name among these.
pub fn column_named<'a>(name: &Name, columns: &'a [ColumnRec]) -> Option<&'a ColumnRec>
    ensures { option_map field_of (option_copied result) ≡ scopes.field_named name.now (map field_of columns.now) }
{
    for column in columns {
        if column.name.is(name) {
            return Some(column);
        }
    }
    None
}

/// Whether the item's table has a column of that name.
pub fn has_column(catalog: &Catalog, name: &Name, item: &Seen) -> bool
    ensures { result ≡ scopes.has_column (catalogue catalog.now) name.now item.now }
{
    is_among(name, columns_of(catalog, &item.tab))
}

fn is_among(name: &Name, columns: &[ColumnRec]) -> bool
    ensures { result ≡ list_any (λ f. bytes_eq f.name name.now) (map field_of columns.now) }
{
    for column in columns {
        if column.name.is(name) {
            return true;
        }
    }
    false
}

fn column_of<'s, 'c>(catalog: &'c Catalog, name: &'s Name, item: &'s Seen) -> Meaning<'s, 'c>
    ensures { meaning_in result ≡ scopes.column_of (catalogue catalog.now) name.now item.now }
{
    match column_named(name, columns_of(catalog, &item.tab)) {
        Some(column) => Meaning::Found(item, column),
        None => Meaning::Unknown(name),
    }
}

/// What `by.name` means: it belongs to the innermost query whose FROM has that correlation name (identifiers).
fn qualified<'s, 'c>(
    catalog: &'c Catalog,
    by: &'s Name,
    name: &'s Name,
    seen: &'s [Seen],
) -> Meaning<'s, 'c>
    ensures { meaning_in result ≡ scopes.qualified (catalogue catalog.now) by.now name.now seen.now }
{
    for item in seen {
        if correlation(&item.tab).is(by) {
            return column_of(catalog, name, item);
        }
    }
    Meaning::Unknown(by)
}

/// Whether one of these items is of the query of that level and has the column.
fn is_shared(catalog: &Catalog, name: &Name, level: usize, seen: &[Seen]) -> bool
    ensures { result ≡ scopes.is_shared (catalogue catalog.now) name.now level seen.now }
{
    for item in seen {
        if item.level == level && has_column(catalog, name, item) {
            return true;
        }
    }
    false
}

fn behind(seen: &[Seen], place: usize) -> &[Seen]
    requires { place < length seen.now }
    ensures { result.now ≡ drop (suc place) seen.now }
{
    &seen[place + 1..]
}

/// What a name without a correlation name means: it belongs to the innermost query in which some FROM item has that column, where
/// only one of its items has it (identifiers).
fn unqualified<'s, 'c>(catalog: &'c Catalog, name: &'s Name, seen: &'s [Seen]) -> Meaning<'s, 'c>
    ensures { meaning_in result ≡ scopes.unqualified (catalogue catalog.now) name.now seen.now }
{
    for (place, item) in seen.iter().enumerate() {
        if has_column(catalog, name, item) {
            if is_shared(catalog, name, item.level, behind(seen, place)) {
                return Meaning::Unknown(name);
            }
            return column_of(catalog, name, item);
        }
    }
    Meaning::Unknown(name)
}

/// What the column's name means where these items are in sight.
pub fn resolve<'s, 'c>(
    catalog: &'c Catalog,
    seen: &'s [Seen],
    column: &'s Column,
) -> Meaning<'s, 'c>
    ensures { meaning_in result ≡ scopes.resolve (catalogue catalog.now) seen.now column.now }
{
    match &column.correlation {
        None => unqualified(catalog, &column.name, seen),
        Some(by) => qualified(catalog, by, &column.name, seen),
    }
}

/// Whether both are the same column of the same FROM item, however they are written.
pub fn is_same_column(catalog: &Catalog, seen: &[Seen], one: &Column, other: &Column) -> bool
    ensures { result ≡ scopes.same_column (catalogue catalog.now) seen.now one.now other.now }
{
    match (resolve(catalog, seen, one), resolve(catalog, seen, other)) {
        (Meaning::Found(item, column), Meaning::Found(another, its_column)) => {
            item.level == another.level
                && correlation(&item.tab).is(correlation(&another.tab))
                && column.name.is(&its_column.name)
        }
        _ => false,
    }
}
