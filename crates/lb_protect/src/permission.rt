// CREATE PERMISSION: its tests in their order, and the permission as it is stored.
ghost use Rattle.std.specs.Prelude.{◌≡◌, IfOk};
ghost use Rattle.std.specs.List.{list_any};
ghost use Rattle.lb_base.specs.declared.key.Key.TheVariants as keys;
ghost use Rattle.lb_alter.specs.ChangeControl as control;
ghost use Rattle.lb_alter.specs.Naming.{stored_rules};
ghost use Rattle.lb_alter.specs.Refusing as refusing;
ghost use Rattle.lb_cat.specs.Stamps.{bare, bare_table, look};
ghost use Rattle.lb_cat.specs.declared.refusal.Refusal.TheVariants as refusals;
ghost use Rattle.lb_names.specs.Mentions.{in_cond};
ghost use Rattle.lb_rows.specs.Tables.{Tables};
ghost use Rattle.lb_changed.specs.Given.{Passes};
ghost use Rattle.lb_changed.specs.Made.{Makes};

use crate::refused::{passes, reads_no};
use crate::taken::is_permission_taken;
use lb_base::{Name, NoMemory};
use lb_cat::{Catalog, Copied, PermissionRec, TableRec};
use lb_changed::{Changed, Stop, alters, exists, secadm, the_table, with_entry};
use lb_control::is_enabled;
use lb_qualify::qualified_condition;
use lb_resolve::{condition_source, permission_names_refused};
use lb_scope::correlation;
use lb_stmt::PermissionDef;
use lb_typing::permission_types_refused;
use std::alloc::Global;

/// CREATE PERMISSION, with OR REPLACE or without (CREATE PERMISSION statement). The first refusal of these: NotSecadm; Unknown where
/// there is no such table; Exists where a permission or mask has the name, but for a permission of the table that is replaced; that of
/// the condition's names; BadSource for the first table in it that may not be read there; Types for the first node of it that breaks
/// a rule. The condition is stored with each column qualified.
#[tactic(auto, using(lb_changed::proofs::Steps::steps))]
pub fn create_permission(
    alloc: Global,
    catalog: &Catalog,
    user: &Name,
    def: &PermissionDef,
) -> Result<Changed, Stop>
    ensures { (T : Tables) → Makes catalog.now T (control.create_permission stored_rules (bare catalog.now) T user.now def.now) result }
{
    secadm(catalog, user)?;
    let table = the_table(alloc, catalog, &def.on.table)?;
    name_is_free(alloc, catalog, def)?;
    names_pass(alloc, catalog, def)?;
    sources_pass(alloc, catalog, &table.name, def)?;
    types_pass(alloc, catalog, def)?;
    permission_made(alloc, catalog, table, def)
}

fn name_is_free(alloc: Global, catalog: &Catalog, def: &PermissionDef) -> Result<(), Stop>
    ensures { Passes (refusing.when (list_any (control.takes_permission_name def.now) (bare catalog.now).tables) (refusals.Exists def.now.name)) result }
{
    if is_permission_taken(catalog, def) {
        return Err(exists(alloc, &def.name));
    }
    Ok(())
}

fn names_pass(alloc: Global, catalog: &Catalog, def: &PermissionDef) -> Result<(), Stop>
    ensures { Passes (stored_rules.condition_names (bare catalog.now) def.now.on def.now.condition) result }
{
    let refused = permission_names_refused(alloc, catalog, &def.on, &def.condition)?;
    passes(refused)
}

fn sources_pass(
    alloc: Global,
    catalog: &Catalog,
    protected: &Name,
    def: &PermissionDef,
) -> Result<(), Stop>
    ensures { Passes (control.source_refusal (bare catalog.now) def.now.name protected.now (in_cond def.now.condition)) result }
{
    let source = condition_source(alloc, catalog, protected, &def.on, &def.condition)?;
    reads_no(alloc, &def.name, source)
}

fn types_pass(alloc: Global, catalog: &Catalog, def: &PermissionDef) -> Result<(), Stop>
    ensures { Passes (stored_rules.condition_types (bare catalog.now) def.now.on def.now.condition) result }
{
    let refused = permission_types_refused(alloc, catalog, &def.on, &def.condition)?;
    passes(refused)
}

/// The permission is put into the table.
#[tactic(auto, using(lb_changed::proofs::Steps::steps))]
fn permission_made(
    alloc: Global,
    catalog: &Catalog,
    table: &TableRec,
    def: &PermissionDef,
) -> Result<Changed, Stop>
    requires { table.now.stamp ≡ look catalog.now (keys.Table table.now.name) }
    ensures { (T : Tables) → Makes catalog.now T (refusing.alters (bare catalog.now) T (control.with_permission (control.new_permission stored_rules (bare catalog.now) def.now) (bare_table table.now))) result }
{
    let permission = new_permission(alloc, catalog, def)?;
    let rec = with_permission(alloc, table, permission)?;
    alters(alloc, catalog, rec)
}

fn new_permission(
    alloc: Global,
    catalog: &Catalog,
    def: &PermissionDef,
) -> Result<PermissionRec, NoMemory>
    ensures { IfOk result (λ p. p ≡ control.new_permission stored_rules (bare catalog.now) def.now) }
{
    let name = def.name.copy()?;
    let correlation = correlation(&def.on).copy()?;
    let condition = qualified_condition(alloc, catalog, &def.on, &def.condition)?;
    Ok(PermissionRec {
        name,
        correlation,
        condition,
        enabled: is_enabled(def.switch),
    })
}

/// The table with the permission in the place of the one of its name, or last.
fn with_permission(
    alloc: Global,
    table: &TableRec,
    permission: PermissionRec,
) -> Result<TableRec, NoMemory>
    ensures bare { IfOk result (λ t. bare_table t ≡ control.with_permission permission (bare_table table.now)) }
    ensures name { IfOk result (λ t. t.name ≡ table.now.name) }
    ensures stamp { IfOk result (λ t. t.stamp ≡ table.now.stamp) }
{
    let mut rec = table.copy(alloc)?;
    rec.permissions = with_entry(alloc, table.permissions.as_slice(), permission)?;
    Ok(rec)
}
