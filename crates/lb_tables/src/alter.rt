// ALTER TABLE, but for access control.
ghost use Rattle.std.specs.Prelude.{◌≡◌, ◌+◌, ◌*◌, ◌++◌, ◌∷◌, [], true, false, Some, is_none, is_some, map, length, nat_le, nat_lt, option_map, IfOk};
ghost use Rattle.lb_base.specs.declared.key.Key.TheVariants as keys;
ghost use Rattle.lb_alter.specs.AlterTable as definitions;
ghost use Rattle.lb_alter.specs.ChangeTable.{has_width, is_label_type};
ghost use Rattle.lb_alter.specs.Refusing as refusing;
ghost use Rattle.lb_cat.specs.Catalog as cat;
ghost use Rattle.lb_cat.specs.Stamps.{bare, bare_table, look};
ghost use Rattle.lb_cat.specs.declared.refusal.Refusal.TheVariants as refusals;
ghost use Rattle.lb_cat.specs.declared.refusal.LimitOf.TheVariants as limits;
ghost use Rattle.lb_cat.specs.declared.refusal.Flaw.TheVariants as kinds;
ghost use Rattle.lb_rows.specs.Stamped.{rows_only};
ghost use Rattle.lb_rows.specs.Tables.{Tables, put_version, rows_of};
ghost use Rattle.lb_changed.specs.Given.{Gives, Passes};
ghost use Rattle.lb_changed.specs.Made.{Makes};

use crate::columns::{column_named, columns_secured};
use crate::made::with_rows;
use crate::nulls::{row_count, version_with_null};
use crate::secured::{label_refusal, policy_of};
use crate::types::{is_label_type, plain_type, width_refusal};
use lb_base::{Name, NoMemory};
use lb_cat::{Catalog, ColumnRec, Copied, Flaw, LimitOf, TableRec};
use lb_changed::{Changed, Stop, alters, bad_table, exists, limit, owner, the_policy, unknown};
use lb_rows::Snap;
use lb_stmt::PlainType;
use std::alloc::Global;
use std::sync::Arc;

/// ALTER TABLE .. ADD COLUMN: the column goes last, takes nulls and isn't secured, and each row gets a null (ALTER TABLE
/// statement). The first refusal of these: Unknown, or Privilege where another user owns the table; Exists where the table has a
/// column of that name; Limit where it has 64 columns, for the width, and where its rows times its columns would be more than
/// 131,072.
#[tactic(auto, using(lb_changed::proofs::Steps::steps))]
pub fn add_column(
    alloc: Global,
    catalog: &Catalog,
    tables: &Snap,
    user: &Name,
    name: &Name,
    column: &Name,
    ty: PlainType,
) -> Result<Changed, Stop>
    ensures { Makes catalog.now (rows_only tables.now) (definitions.add_column (bare catalog.now) (rows_only tables.now) user.now name.now column.now ty) result }
{
    let table = owner(alloc, catalog, user, name)?;
    column_is_new(alloc, table, column)?;
    columns_leave_room(table)?;
    width_refusal(ty)?;
    cells_leave_room(tables, name, table)?;
    column_added(alloc, catalog, tables, name, table, column, ty)
}

fn column_is_new(alloc: Global, table: &TableRec, column: &Name) -> Result<(), Stop>
    ensures { Passes (refusing.when (is_some (cat.column_named (bare_table table.now) column.now)) (refusals.Exists column.now)) result }
{
    match column_named(table.columns.as_slice(), column) {
        Some(_) => Err(exists(alloc, column)),
        None => Ok(()),
    }
}

fn columns_leave_room(table: &TableRec) -> Result<(), Stop>
    ensures { Passes (refusing.when (nat_le 64 (length (bare_table table.now).columns)) (refusals.Limit limits.Columns 64)) result }
{
    if table.columns.len() >= 64 {
        return Err(limit(LimitOf::Columns, 64));
    }
    Ok(())
}

fn cells_leave_room(tables: &Snap, name: &Name, table: &TableRec) -> Result<(), Stop>
    requires { nat_le 64 (length (bare_table table.now).columns) ≡ false }
    ensures { Passes (refusing.when (nat_lt 131072 (length (rows_of name.now (rows_only tables.now)) * (length (bare_table table.now).columns + 1))) (refusals.Limit limits.Cells 131072)) result }
{
    let rows = row_count(tables, name) as u64;
    let columns = table.columns.len() as u64 + 1;
    if rows * columns > 131072 {
        return Err(limit(LimitOf::Cells, 131072));
    }
    Ok(())
}

fn column_added(
    alloc: Global,
    catalog: &Catalog,
    tables: &Snap,
    name: &Name,
    table: &TableRec,
    column: &Name,
    ty: PlainType,
) -> Result<Changed, Stop>
    requires stamp { table.now.stamp ≡ look catalog.now (keys.Table table.now.name) }
    requires width { has_width ty ≡ true }
    ensures { Makes catalog.now (rows_only tables.now) (refusing.done (cat.put_table (record (bare_table table.now) { columns = table.now.columns ++ definitions.plain_column column.now ty ∷ [] }) (bare catalog.now)) (put_version (record { name = table.now.name; rows = map definitions.with_null (rows_of name.now (rows_only tables.now)) }) (rows_only tables.now)) (keys.Table table.now.name ∷ keys.Rows table.now.name ∷ [])) result }
{
    let version = version_with_null(alloc, tables, name, &table.name)?;
    let rec = with_column(alloc, table, column, ty)?;
    with_rows(alloc, catalog, rec, version)
}

fn with_column(
    alloc: Global,
    table: &TableRec,
    column: &Name,
    ty: PlainType,
) -> Result<TableRec, NoMemory>
    requires { has_width ty ≡ true }
    ensures bare { IfOk result (λ t. bare_table t ≡ record (bare_table table.now) { columns = table.now.columns ++ definitions.plain_column column.now ty ∷ [] }) }
    ensures name { IfOk result (λ t. t.name ≡ table.now.name) }
    ensures stamp { IfOk result (λ t. t.stamp ≡ table.now.stamp) }
{
    let mut rec = table.copy(alloc)?;
    rec.columns.push(plain_column(column, ty)?)?;
    Ok(rec)
}

fn plain_column(column: &Name, ty: PlainType) -> Result<ColumnRec, NoMemory>
    requires { has_width ty ≡ true }
    ensures { IfOk result (λ c. c ≡ definitions.plain_column column.now ty) }
{
    let name = column.copy()?;
    Ok(ColumnRec {
        name,
        ty: plain_type(ty),
        not_null: false,
        secured: None,
    })
}

/// ALTER TABLE .. ADD SECURITY POLICY (ALTER TABLE statement). The first refusal of these: Unknown, or Privilege where another
/// user owns the table; Exists where the table has a policy; Unknown where there is no such policy.
#[tactic(auto, using(lb_changed::proofs::Steps::steps))]
pub fn add_policy(
    alloc: Global,
    catalog: &Catalog,
    user: &Name,
    name: &Name,
    policy: &Name,
) -> Result<Changed, Stop>
    ensures { (T : Tables) → Makes catalog.now T (definitions.add_policy (bare catalog.now) T user.now name.now policy.now) result }
{
    let table = owner(alloc, catalog, user, name)?;
    exists_already(alloc, &table.policy)?;
    the_policy(alloc, catalog, policy)?;
    policy_added(alloc, catalog, table, policy)
}

fn exists_already(alloc: Global, policy: &Option<Name>) -> Result<(), Stop>
    ensures { Passes (refusing.exists_already policy.now) result }
{
    match policy {
        Some(policy) => Err(exists(alloc, policy)),
        None => Ok(()),
    }
}

#[tactic(auto, using(lb_changed::proofs::Steps::steps))]
fn policy_added(
    alloc: Global,
    catalog: &Catalog,
    table: &TableRec,
    policy: &Name,
) -> Result<Changed, Stop>
    requires { table.now.stamp ≡ look catalog.now (keys.Table table.now.name) }
    ensures { (T : Tables) → Makes catalog.now T (refusing.alters (bare catalog.now) T (record (bare_table table.now) { policy = Some policy.now })) result }
{
    let rec = with_policy(alloc, table, policy)?;
    alters(alloc, catalog, rec)
}

fn with_policy(alloc: Global, table: &TableRec, policy: &Name) -> Result<TableRec, NoMemory>
    ensures bare { IfOk result (λ t. bare_table t ≡ record (bare_table table.now) { policy = Some policy.now }) }
    ensures name { IfOk result (λ t. t.name ≡ table.now.name) }
    ensures stamp { IfOk result (λ t. t.stamp ≡ table.now.stamp) }
{
    let mut rec = table.copy(alloc)?;
    rec.policy = Some(policy.copy()?);
    Ok(rec)
}

/// ALTER TABLE .. ALTER COLUMN .. SECURED WITH, which replaces a label that secures the column (ALTER TABLE statement). The first
/// refusal of these: Unknown, or Privilege where another user owns the table; Unknown for the column; BadTable with NoPolicy where
/// the table has no policy, and with LabelKey where the column holds labels; Unknown where the policy has no such label.
#[tactic(auto, using(lb_changed::proofs::Steps::steps))]
pub fn secure_column(
    alloc: Global,
    catalog: &Catalog,
    user: &Name,
    name: &Name,
    column: &Name,
    label: &Name,
) -> Result<Changed, Stop>
    ensures { (T : Tables) → Makes catalog.now T (definitions.secure_column (bare catalog.now) T user.now name.now column.now label.now) result }
{
    let table = owner(alloc, catalog, user, name)?;
    let found = the_column(alloc, table, column)?;
    has_policy(alloc, table, column)?;
    holds_no_labels(alloc, found, column)?;
    label_refusal(alloc, policy_of(catalog, &table.policy), label)?;
    column_secured(alloc, catalog, table, column, Some(label))
}

fn the_column<'a>(alloc: Global, table: &'a TableRec, column: &Name) -> Result<&'a ColumnRec, Stop>
    ensures { Gives (λ c. c.now) (refusing.found column.now (cat.column_named (bare_table table.now) column.now)) result }
{
    match column_named(table.columns.as_slice(), column) {
        Some(found) => Ok(found),
        None => Err(unknown(alloc, column)),
    }
}

fn has_policy(alloc: Global, table: &TableRec, column: &Name) -> Result<(), Stop>
    ensures { Passes (refusing.when (is_none table.now.policy) (refusals.BadTable column.now kinds.NoPolicy)) result }
{
    match table.policy {
        Some(_) => Ok(()),
        None => Err(bad_table(alloc, column, Flaw::NoPolicy)),
    }
}

fn holds_no_labels(alloc: Global, found: &ColumnRec, column: &Name) -> Result<(), Stop>
    ensures { Passes (refusing.when (is_label_type found.now.ty) (refusals.BadTable column.now kinds.LabelKey)) result }
{
    if is_label_type(&found.ty) {
        return Err(bad_table(alloc, column, Flaw::LabelKey));
    }
    Ok(())
}

#[tactic(auto, using(lb_changed::proofs::Steps::steps))]
fn column_secured(
    alloc: Global,
    catalog: &Catalog,
    table: &TableRec,
    column: &Name,
    label: Option<&Name>,
) -> Result<Changed, Stop>
    requires { table.now.stamp ≡ look catalog.now (keys.Table table.now.name) }
    ensures { (T : Tables) → Makes catalog.now T (refusing.alters (bare catalog.now) T (record (bare_table table.now) { columns = definitions.change_column (definitions.secure (option_map (λ l. l.now) label.entry)) column.now table.now.columns })) result }
{
    let rec = with_secured(alloc, table, column, label)?;
    alters(alloc, catalog, rec)
}

fn with_secured(
    alloc: Global,
    table: &TableRec,
    column: &Name,
    label: Option<&Name>,
) -> Result<TableRec, NoMemory>
    ensures bare { IfOk result (λ t. bare_table t ≡ record (bare_table table.now) { columns = definitions.change_column (definitions.secure (option_map (λ l. l.now) label.entry)) column.now table.now.columns }) }
    ensures name { IfOk result (λ t. t.name ≡ table.now.name) }
    ensures stamp { IfOk result (λ t. t.stamp ≡ table.now.stamp) }
{
    let mut rec = table.copy(alloc)?;
    rec.columns = columns_secured(alloc, table.columns.as_slice(), column, label)?;
    Ok(rec)
}

/// ALTER TABLE .. ALTER COLUMN .. DROP COLUMN SECURITY (ALTER TABLE statement). The first refusal of these: Unknown, or Privilege
/// where another user owns the table; Unknown for the column.
#[tactic(auto, using(lb_changed::proofs::Steps::steps))]
pub fn unsecure_column(
    alloc: Global,
    catalog: &Catalog,
    user: &Name,
    name: &Name,
    column: &Name,
) -> Result<Changed, Stop>
    ensures { (T : Tables) → Makes catalog.now T (definitions.unsecure_column (bare catalog.now) T user.now name.now column.now) result }
{
    let table = owner(alloc, catalog, user, name)?;
    the_column(alloc, table, column)?;
    column_secured(alloc, catalog, table, column, None)
}
