// What is active, permissions and masks.
ghost use Rattle.std.specs.Prelude.{◌≡◌, not, true};
ghost use Rattle.lb_alter.specs.Change.{attempt};
ghost use Rattle.lb_alter.specs.Naming.{stored_rules};
ghost use Rattle.lb_alter.specs.Sound.{IsSound};
ghost use Rattle.lb_cat.specs.Stamps.{bare};
ghost use Rattle.lb_rows.specs.Tables.{Tables};
ghost use Rattle.lb_changed.specs.Made.{Makes};
ghost use Rattle.lb_settled.specs.Statements.{is_of_tables};

use crate::labels::labelled;
use lb_base::Name;
use lb_cat::Catalog;
use lb_changed::{Changed, Stop};
use lb_control::{drop_mask, drop_permission, switch_mask, switch_permission};
use lb_protect::{create_mask, create_permission};
use lb_stmt::Change;
use lb_tables::activate;
use std::alloc::Global;

/// A statement on access control.
pub fn controlled(
    alloc: Global,
    catalog: &Catalog,
    user: &Name,
    change: &Change,
) -> Result<Changed, Stop>
    requires kind { not (is_of_tables change.now) ≡ true }
    requires sound { IsSound stored_rules (bare catalog.now) }
    ensures { (T : Tables) → Makes catalog.now T (attempt stored_rules (bare catalog.now) T user.now change.now) result }
{
    match change {
        Change::Activate(table, first, second) => {
            activate(alloc, catalog, user, table, *first, *second)
        }
        Change::CreatePermission(def) => create_permission(alloc, catalog, user, def),
        Change::CreateMask(def) => create_mask(alloc, catalog, user, def),
        Change::SwitchPermission(name, to) => switch_permission(alloc, catalog, user, name, *to),
        Change::SwitchMask(name, to) => switch_mask(alloc, catalog, user, name, *to),
        Change::DropPermission(name) => drop_permission(alloc, catalog, user, name),
        Change::DropMask(name) => drop_mask(alloc, catalog, user, name),
        _ => labelled(alloc, catalog, user, change),
    }
}
