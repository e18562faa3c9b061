// The ending that CREATE TABLE and ADD COLUMN have in common.
ghost use Rattle.std.specs.Prelude.{◌≡◌, ◌∷◌, [], IfOk};
ghost use Rattle.std.specs.Arc.{arc_value};
ghost use Rattle.lb_base.specs.declared.key.Key.TheVariants as keys;
ghost use Rattle.lb_alter.specs.Refusing as refusing;
ghost use Rattle.lb_cat.specs.Catalog as cat;
ghost use Rattle.lb_cat.specs.Stamps.{bare, bare_table, look};
ghost use Rattle.lb_rows.specs.Tables.{Tables, put_version};
ghost use Rattle.lb_changed.specs.Made.{Makes};

use lb_base::{Key, Name, NoMemory};
use lb_cat::{Catalog, Keys, Reply, TableRec};
use lb_changed::{Changed, Stop, one_key, with_table};
use lb_rows::TableVersion;
use std::alloc::Global;
use std::sync::Arc;

/// An accepted change of a table's record and of its rows, where the record has the stamp of its key, and the rows are that table's.
pub(crate) fn with_rows(
    alloc: Global,
    catalog: &Catalog,
    rec: TableRec,
    version: Arc<TableVersion>,
) -> Result<Changed, Stop>
    requires stamp { rec.stamp ≡ look catalog.now (keys.Table rec.name) }
    requires of_table { (arc_value version).name ≡ rec.name }
    ensures { (T : Tables) → Makes catalog.now T (refusing.done (cat.put_table (bare_table rec) (bare catalog.now)) (put_version (arc_value version) T) (keys.Table rec.name ∷ keys.Rows rec.name ∷ [])) result }
{
    let touched = table_keys(alloc, &rec.name)?;
    let changed = with_table(alloc, catalog, rec)?;
    Ok(Changed {
        catalog: changed,
        table: Some(version),
        touched,
        reply: Reply::Done,
    })
}

/// The keys of a table's record and of its rows.
pub(crate) fn table_keys(alloc: Global, name: &Name) -> Result<Keys, NoMemory>
    ensures { IfOk result (λ ks. ks ≡ keys.Table name.now ∷ keys.Rows name.now ∷ []) }
{
    let mut touched = one_key(alloc, Key::Table(name.copy()?))?;
    touched.push(Key::Rows(name.copy()?))?;
    Ok(touched)
}
