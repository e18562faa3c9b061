// CREATE MASK: its tests in their order, and the mask as it is stored.
ghost use Rattle.std.specs.Prelude.{◌≡◌, ◌==◌, ◌&&◌, IfOk, find, not, option_map, position};
ghost use Rattle.std.specs.List.{list_any};
ghost use Rattle.std.specs.Option.{option_copied};
ghost use Rattle.lb_base.specs.declared.key.Key.TheVariants as keys;
ghost use Rattle.lb_alter.specs.ChangeControl as control;
ghost use Rattle.lb_alter.specs.Naming.{stored_rules};
ghost use Rattle.lb_alter.specs.Refusing as refusing;
ghost use Rattle.lb_cat.specs.Catalog.{is_column, is_mask};
ghost use Rattle.lb_cat.specs.Stamps.{bare, bare_table, look};
ghost use Rattle.lb_cat.specs.declared.refusal.Refusal.TheVariants as refusals;
ghost use Rattle.lb_names.specs.Mentions.{in_expr};
ghost use Rattle.lb_rows.specs.Tables.{Tables};
ghost use Rattle.lb_changed.specs.Given.{Gives, Passes};
ghost use Rattle.lb_changed.specs.Made.{Makes};

use crate::refused::{passes, reads_no};
use crate::taken::is_mask_taken;
use lb_base::{Name, NoMemory};
use lb_cat::{Catalog, ColumnRec, Copied, MaskRec, TableRec};
use lb_changed::{Changed, Stop, alters, exists, secadm, the_table, unknown, with_entry};
use lb_control::is_enabled;
use lb_qualify::qualified_mask;
use lb_resolve::{mask_names_refused, value_source};
use lb_scope::correlation;
use lb_stmt::MaskDef;
use lb_typing::mask_types_refused;
use std::alloc::Global;

/// CREATE MASK, with OR REPLACE or without (CREATE MASK statement). The first refusal of these: NotSecadm; Unknown where there is no
/// such table, or no such column; Exists where a permission or mask has the name, but for a mask of the column that is replaced, and
/// where the column has another mask; that of the names of the CASE; BadSource for the first table in it that may not be read there;
/// Types for the first node of it that breaks a rule, and for the CASE itself where it isn't of the column's type. The CASE is stored
/// with each column qualified.
#[tactic(auto, using(lb_changed::proofs::Steps::steps))]
pub fn create_mask(
    alloc: Global,
    catalog: &Catalog,
    user: &Name,
    def: &MaskDef,
) -> Result<Changed, Stop>
    ensures { (T : Tables) → Makes catalog.now T (control.create_mask stored_rules (bare catalog.now) T user.now def.now) result }
{
    secadm(catalog, user)?;
    let table = the_table(alloc, catalog, &def.on.table)?;
    let column = the_column(alloc, table, &def.column)?;
    name_is_free(alloc, catalog, def, column)?;
    column_is_free(alloc, table, &def.name, column)?;
    names_pass(alloc, catalog, def)?;
    sources_pass(alloc, catalog, &table.name, def)?;
    types_pass(alloc, catalog, def)?;
    mask_made(alloc, catalog, table, column, def)
}

/// The place of the column of that name, or Unknown.
fn the_column(alloc: Global, table: &TableRec, name: &Name) -> Result<u32, Stop>
    ensures { Gives (λ n. n) (refusing.found name.now (position (is_column name.now) (bare_table table.now).columns)) result }
{
    let Some(place) = place_of(table.columns.as_slice(), name) else {
        return Err(unknown(alloc, name));
    };
    // A table has at most 64 columns, so its places have fewer than 32 bits.
    match u32::try_from(place) {
        Ok(place) => Ok(place),
        Err(_) => Err(Stop::NoMemory),
    }
}

/// The place of the first column of that name, and nothing exactly where there is none.
fn place_of(columns: &[ColumnRec], name: &Name) -> Option<usize>
    ensures { result ≡ position (is_column name.now) columns.now }
{
    let mut place = 0;
    for column in columns {
        if column.name.is(name) {
            return Some(place);
        }
        place += 1;
    }
    None
}

fn name_is_free(alloc: Global, catalog: &Catalog, def: &MaskDef, column: u32) -> Result<(), Stop>
    ensures { Passes (refusing.when (list_any (control.takes_mask_name def.now column) (bare catalog.now).tables) (refusals.Exists def.now.name)) result }
{
    if is_mask_taken(catalog, def, column) {
        return Err(exists(alloc, &def.name));
    }
    Ok(())
}

/// The column has no mask of another name.
fn column_is_free(alloc: Global, table: &TableRec, name: &Name, column: u32) -> Result<(), Stop>
    ensures { Passes (refusing.exists_already (control.other_mask name.now column (bare_table table.now))) result }
{
    match other_mask(table.masks.as_slice(), name, column) {
        Some(other) => Err(exists(alloc, other)),
        None => Ok(()),
    }
}

/// The name of the first mask of the column that has another name.
fn other_mask<'a>(masks: &'a [MaskRec], name: &Name, column: u32) -> Option<&'a Name>
    ensures { option_copied result ≡ option_map control.mask_name (find (λ m. m.column == column && not (is_mask name.now m)) masks.now) }
{
    for mask in masks {
        if mask.column == column && !mask.name.is(name) {
            return Some(&mask.name);
        }
    }
    None
}

fn names_pass(alloc: Global, catalog: &Catalog, def: &MaskDef) -> Result<(), Stop>
    ensures { Passes (stored_rules.mask_names (bare catalog.now) def.now.on def.now.value) result }
{
    let refused = mask_names_refused(alloc, catalog, &def.on, &def.value)?;
    passes(refused)
}

fn sources_pass(
    alloc: Global,
    catalog: &Catalog,
    protected: &Name,
    def: &MaskDef,
) -> Result<(), Stop>
    ensures { Passes (control.source_refusal (bare catalog.now) def.now.name protected.now (in_expr def.now.value)) result }
{
    let source = value_source(alloc, catalog, protected, &def.on, &def.value)?;
    reads_no(alloc, &def.name, source)
}

fn types_pass(alloc: Global, catalog: &Catalog, def: &MaskDef) -> Result<(), Stop>
    ensures { Passes (stored_rules.mask_types (bare catalog.now) def.now.on def.now.column def.now.value) result }
{
    let refused = mask_types_refused(alloc, catalog, &def.on, &def.column, &def.value)?;
    passes(refused)
}

/// The mask of that column is put into the table.
#[tactic(auto, using(lb_changed::proofs::Steps::steps))]
fn mask_made(
    alloc: Global,
    catalog: &Catalog,
    table: &TableRec,
    column: u32,
    def: &MaskDef,
) -> Result<Changed, Stop>
    requires { table.now.stamp ≡ look catalog.now (keys.Table table.now.name) }
    ensures { (T : Tables) → Makes catalog.now T (refusing.alters (bare catalog.now) T (control.with_mask (control.new_mask stored_rules (bare catalog.now) column def.now) (bare_table table.now))) result }
{
    let mask = new_mask(alloc, catalog, column, def)?;
    let rec = with_mask(alloc, table, mask)?;
    alters(alloc, catalog, rec)
}

fn new_mask(
    alloc: Global,
    catalog: &Catalog,
    column: u32,
    def: &MaskDef,
) -> Result<MaskRec, NoMemory>
    ensures { IfOk result (λ m. m ≡ control.new_mask stored_rules (bare catalog.now) column def.now) }
{
    let name = def.name.copy()?;
    let correlation = correlation(&def.on).copy()?;
    let value = qualified_mask(alloc, catalog, &def.on, &def.value)?;
    Ok(MaskRec {
        name,
        column,
        correlation,
        value,
        enabled: is_enabled(def.switch),
    })
}

/// The table with the mask in the place of the one of its name, or last.
fn with_mask(alloc: Global, table: &TableRec, mask: MaskRec) -> Result<TableRec, NoMemory>
    ensures bare { IfOk result (λ t. bare_table t ≡ control.with_mask mask (bare_table table.now)) }
    ensures name { IfOk result (λ t. t.name ≡ table.now.name) }
    ensures stamp { IfOk result (λ t. t.stamp ≡ table.now.stamp) }
{
    let mut rec = table.copy(alloc)?;
    rec.masks = with_entry(alloc, table.masks.as_slice(), mask)?;
    Ok(rec)
}
