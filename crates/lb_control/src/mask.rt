// Column masks: ALTER and DROP MASK.
ghost use Rattle.std.specs.Prelude.{if◌then◌else◌, map};
ghost use Rattle.lb_alter.specs.ChangeControl as control;
ghost use Rattle.lb_alter.specs.Refusing as refusing;
ghost use Rattle.lb_cat.specs.Catalog as cat;
ghost use Rattle.lb_cat.specs.Stamps.{bare, bare_table};
ghost use Rattle.lb_rows.specs.Lists.{without as left_without};
ghost use Rattle.lb_rows.specs.Tables.{Tables};
ghost use Rattle.lb_changed.specs.Made.{Makes};

use crate::kind::ControlKind;
use crate::stands::table_with;
use crate::switch::{is_enabled, with_switched};
use lb_base::Name;
use lb_cat::{Catalog, Copied, TableRec};
use lb_changed::{Changed, Stop, secadm, without};
use lb_first::alters_table;
use lb_stmt::Switch;
use std::alloc::Global;

/// ALTER MASK: the mask is enabled or disabled (ALTER MASK statement). NotSecadm, or Unknown where there is no such mask.
#[tactic(auto, using(lb_changed::proofs::Steps::steps))]
pub fn switch_mask(
    alloc: Global,
    catalog: &Catalog,
    user: &Name,
    name: &Name,
    switch: Switch,
) -> Result<Changed, Stop>
    ensures { (T : Tables) → Makes catalog.now T (control.switch_mask (bare catalog.now) T user.now name.now switch) result }
{
    secadm(catalog, user)?;
    let table = table_with(alloc, catalog, ControlKind::Mask, name)?;
    leaves_switched(alloc, catalog, table, name, switch)
}

#[tactic(auto, using(crate::proofs::Altered::altered))]
fn leaves_switched(
    alloc: Global,
    catalog: &Catalog,
    table: &TableRec,
    name: &Name,
    switch: Switch,
) -> Result<Changed, Stop>
    ensures { (T : Tables) → Makes catalog.now T (refusing.alters (bare catalog.now) T (record (bare_table table.now) { masks = map (λ m. if cat.is_mask name.now m then record m { enabled = control.is_enabled switch } else m) table.now.masks })) result }
{
    let mut rec = table.copy(alloc)?;
    let masks = table.masks.as_slice();
    rec.masks = with_switched(alloc, masks, name, is_enabled(switch))?;
    alters_table(alloc, catalog, rec)
}

/// DROP MASK (DROP statement). NotSecadm, or Unknown where there is no such mask.
#[tactic(auto, using(lb_changed::proofs::Steps::steps))]
pub fn drop_mask(
    alloc: Global,
    catalog: &Catalog,
    user: &Name,
    name: &Name,
) -> Result<Changed, Stop>
    ensures { (T : Tables) → Makes catalog.now T (control.drop_mask (bare catalog.now) T user.now name.now) result }
{
    secadm(catalog, user)?;
    let table = table_with(alloc, catalog, ControlKind::Mask, name)?;
    leaves_without(alloc, catalog, table, name)
}

#[tactic(auto, using(crate::proofs::Altered::altered))]
fn leaves_without(
    alloc: Global,
    catalog: &Catalog,
    table: &TableRec,
    name: &Name,
) -> Result<Changed, Stop>
    ensures { (T : Tables) → Makes catalog.now T (refusing.alters (bare catalog.now) T (record (bare_table table.now) { masks = left_without (cat.is_mask name.now) table.now.masks })) result }
{
    let mut rec = table.copy(alloc)?;
    rec.masks = without(alloc, table.masks.as_slice(), name)?;
    alters_table(alloc, catalog, rec)
}
