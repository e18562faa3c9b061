// The first table of the catalogue that passes a test, and the record of a table afterwards.
ghost use Rattle.std.specs.Prelude.{◌≡◌, Bool, find, slice_get};
ghost use Rattle.std.specs.Option.{option_map};
ghost use Rattle.std.specs.Arc.{arc_value};
ghost use Rattle.lb_alter.specs.ChangePolicy.{table_name};
ghost use Rattle.lb_alter.specs.Refusing as refusing;
ghost use Rattle.lb_cat.specs.Catalog.{Table};
ghost use Rattle.lb_cat.specs.Stamps.{bare, bare_table};
ghost use Rattle.lb_rows.specs.Tables.{Tables};
ghost use Rattle.lb_changed.specs.Given.{Passes};
ghost use Rattle.lb_changed.specs.Made.{Makes};
ghost use Rattle.lb_first.specs.Passing.{passing};

use lb_base::{Key, Name};
use lb_cat::{Catalog, TableRec};
use lb_changed::{Changed, Stop, alters, in_use};
use std::alloc::Global;
use std::sync::Arc;

/// What is asked of a table.
pub trait TableTest {
    ghost test: { Self → Table → Bool };

    /// Whether the table passes.
    fn passes(&self, table: &TableRec) -> bool
        ensures { result ≡ test self.now (bare_table table.now) };
}

/// The first table that passes, in the order of making, and nothing exactly where none does.
#[tactic(auto, using(crate::proofs::First::found_here, crate::proofs::First::found_later))]
pub fn first_table<'a, T: TableTest>(catalog: &'a Catalog, test: &T) -> Option<&'a Arc<TableRec>>
    ensures { option_map (λ t. bare_table (arc_value t.now)) result ≡ find (T.test test.now) (bare catalog.now).tables }
{
    for place in 0..catalog.table_count() {
        if let Some(table) = passing_at(catalog, place, test) {
            return Some(table);
        }
    }
    None
}

/// The table in this place, if it passes.
fn passing_at<'a, T: TableTest>(
    catalog: &'a Catalog,
    place: usize,
    test: &T,
) -> Option<&'a Arc<TableRec>>
    ensures { option_map (λ t. bare_table (arc_value t.now)) result ≡ passing (T.test test.now) (slice_get (bare catalog.now).tables place) }
{
    match catalog.table_at(place) {
        Some(table) if test.passes(table) => Some(table),
        _ => None,
    }
}

/// InUse with the first table that passes, where one does: what has the name can't be dropped.
pub fn no_table_uses<T: TableTest>(
    alloc: Global,
    catalog: &Catalog,
    name: &Name,
    test: &T,
) -> Result<(), Stop>
    ensures { Passes (refusing.in_use name.now (option_map table_name (find (T.test test.now) (bare catalog.now).tables))) result }
{
    match first_table(catalog, test) {
        Some(table) => Err(in_use(alloc, name, &table.name)),
        None => Ok(()),
    }
}

/// An accepted change of one table's record. The record gets the stamp of the one whose place it takes, and 0 where there is none.
pub fn alters_table(alloc: Global, catalog: &Catalog, rec: TableRec) -> Result<Changed, Stop>
    ensures { (T : Tables) → Makes catalog.now T (refusing.alters (bare catalog.now) T (bare_table rec)) result }
{
    let mut rec = rec;
    rec.stamp = catalog.look(&Key::Table(rec.name.copy()?));
    alters(alloc, catalog, rec)
}
