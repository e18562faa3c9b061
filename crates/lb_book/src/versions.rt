// The rows of all tables after an entry.
ghost use Rattle.std.specs.Prelude.{◌≡◌, ◌∷◌, [], option_map};
ghost use Rattle.std.specs.Arc.{arc_value};
ghost use Rattle.lb_rows.specs.Lists.{without};
ghost use Rattle.lb_book.specs.Grown.{put_stamped};
ghost use Rattle.lb_book.specs.Leaving.{HasRoom, is_touched_in, left_stamped};

use lb_base::Key;
use lb_rows::{Snap, TableVersion};
use std::sync::Arc;

/// A new version takes its table's place with this stamp, if there is one.
pub(crate) fn put(tables: &mut Snap, table: Option<Arc<TableVersion>>, stamp: u64)
    requires { HasRoom (option_map arc_value table) tables.old }
    ensures { tables.new ≡ put_stamped stamp (option_map arc_value table) tables.old }
{
    if let Some(version) = table {
        tables.put(version, stamp);
    }
}

/// What a change leaves: a new version with this stamp, or where there is none, no rows of the tables whose rows are touched.
pub(crate) fn leave(
    tables: &mut Snap,
    table: Option<Arc<TableVersion>>,
    touched: &[Key],
    stamp: u64,
)
    requires { HasRoom (option_map arc_value table) tables.old }
    ensures { tables.new ≡ left_stamped stamp (option_map arc_value table) touched.now tables.old }
{
    match table {
        Some(version) => tables.put(version, stamp),
        None => remove(tables, touched),
    }
}

/// Removes the rows of the tables whose rows are touched.
fn remove(tables: &mut Snap, touched: &[Key])
    ensures { tables.new ≡ without (is_touched_in touched.now) tables.old }
{
    for key in touched {
        remove_under(tables, key);
    }
}

/// Removes the rows under the key, if it is one of rows.
fn remove_under(tables: &mut Snap, key: &Key)
    ensures { tables.new ≡ without (is_touched_in (key.now ∷ [])) tables.old }
{
    if let Key::Rows(name) = key {
        tables.remove(name);
    }
}
