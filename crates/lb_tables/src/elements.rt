// The elements of CREATE TABLE: its columns, and the columns that are keys.
ghost use Rattle.std.specs.Prelude.{◌≡◌, ◌≤◌, length, position};
ghost use Rattle.lb_cat.specs.Catalog.{is_among};
ghost use Rattle.lb_alter.specs.ChangeTable as definitions;
ghost use Rattle.lb_alter.specs.ChangeTable.{columns_in, keys_in};

use lb_base::Name;
use lb_stmt::{ColumnDef, Element};

/// How many columns there are.
pub(crate) fn column_count(elements: &[Element]) -> usize
    ensures { result ≡ length (columns_in elements.now) }
{
    let mut count = 0;
    for element in elements {
        let Element::Column(_) = element else {
            continue;
        };
        count += 1;
    }
    count
}

/// A PRIMARY KEY element names it.
pub(crate) fn is_named_key(elements: &[Element], name: &Name) -> bool
    ensures { result ≡ is_among (keys_in elements.now) name.now }
{
    for element in elements {
        let Element::Key(key) = element else {
            continue;
        };
        if key.is(name) {
            return true;
        }
    }
    false
}

/// The column is a key by its own option or by an element.
pub(crate) fn is_key(elements: &[Element], column: &ColumnDef) -> bool
    ensures { result ≡ definitions.is_key elements.now column.now }
{
    column.key || is_named_key(elements, &column.name)
}

/// One of the columns has the name.
pub(crate) fn has_column_named(elements: &[Element], name: &Name) -> bool
    ensures { result ≡ definitions.has_column_named (columns_in elements.now) name.now }
{
    for element in elements {
        let Element::Column(column) = element else {
            continue;
        };
        if column.name.is(name) {
            return true;
        }
    }
    false
}

/// The place of the first column that is a key, among the columns.
pub(crate) fn key_place(elements: &[Element]) -> Option<u32>
    requires { length (columns_in elements.now) ≤ 64 }
    ensures { result ≡ position (definitions.is_key elements.now) (columns_in elements.now) }
{
    let mut place = 0;
    for element in elements {
        let Element::Column(column) = element else {
            continue;
        };
        if is_key(elements, column) {
            return Some(place);
        }
        place += 1;
    }
    None
}
