// Row permissions: ALTER and DROP PERMISSION.
ghost use Rattle.std.specs.Prelude.{if◌then◌else◌, map};
ghost use Rattle.lb_alter.specs.ChangeControl as control;
ghost use Rattle.lb_alter.specs.Refusing as refusing;
ghost use Rattle.lb_cat.specs.Catalog as cat;
ghost use Rattle.lb_cat.specs.Stamps.{bare, bare_table};
ghost use Rattle.lb_rows.specs.Lists.{without as left_without};
ghost use Rattle.lb_rows.specs.Tables.{Tables};
ghost use Rattle.lb_changed.specs.Made.{Makes};

use crate::kind::ControlKind;
use crate::stands::table_with;
use crate::switch::{is_enabled, with_switched};
use lb_base::Name;
use lb_cat::{Catalog, Copied, TableRec};
use lb_changed::{Changed, Stop, secadm, without};
use lb_first::alters_table;
use lb_stmt::Switch;
use std::alloc::Global;

/// ALTER PERMISSION: the permission is enabled or disabled (ALTER PERMISSION statement). NotSecadm, or Unknown where there is no such
/// permission.
#[tactic(auto, using(lb_changed::proofs::Steps::steps))]
pub fn switch_permission(
    alloc: Global,
    catalog: &Catalog,
    user: &Name,
    name: &Name,
    switch: Switch,
) -> Result<Changed, Stop>
    ensures { (T : Tables) → Makes catalog.now T (control.switch_permission (bare catalog.now) T user.now name.now switch) result }
{
    secadm(catalog, user)?;
    let table = table_with(alloc, catalog, ControlKind::Permission, name)?;
    leaves_switched(alloc, catalog, table, name, switch)
}

#[tactic(auto, using(crate::proofs::Altered::altered))]
fn leaves_switched(
    alloc: Global,
    catalog: &Catalog,
    table: &TableRec,
    name: &Name,
    switch: Switch,
) -> Result<Changed, Stop>
    ensures { (T : Tables) → Makes catalog.now T (refusing.alters (bare catalog.now) T (record (bare_table table.now) { permissions = map (λ p. if cat.is_permission name.now p then record p { enabled = control.is_enabled switch } else p) table.now.permissions })) result }
{
    let mut rec = table.copy(alloc)?;
    let permissions = table.permissions.as_slice();
    rec.permissions = with_switched(alloc, permissions, name, is_enabled(switch))?;
    alters_table(alloc, catalog, rec)
}

/// DROP PERMISSION (DROP statement). NotSecadm, or Unknown where there is no such permission.
#[tactic(auto, using(lb_changed::proofs::Steps::steps))]
pub fn drop_permission(
    alloc: Global,
    catalog: &Catalog,
    user: &Name,
    name: &Name,
) -> Result<Changed, Stop>
    ensures { (T : Tables) → Makes catalog.now T (control.drop_permission (bare catalog.now) T user.now name.now) result }
{
    secadm(catalog, user)?;
    let table = table_with(alloc, catalog, ControlKind::Permission, name)?;
    leaves_without(alloc, catalog, table, name)
}

#[tactic(auto, using(crate::proofs::Altered::altered))]
fn leaves_without(
    alloc: Global,
    catalog: &Catalog,
    table: &TableRec,
    name: &Name,
) -> Result<Changed, Stop>
    ensures { (T : Tables) → Makes catalog.now T (refusing.alters (bare catalog.now) T (record (bare_table table.now) { permissions = left_without (cat.is_permission name.now) table.now.permissions })) result }
{
    let mut rec = table.copy(alloc)?;
    rec.permissions = without(alloc, table.permissions.as_slice(), name)?;
    alters_table(alloc, catalog, rec)
}
