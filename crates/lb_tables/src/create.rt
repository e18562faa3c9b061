// CREATE TABLE.
ghost use Rattle.std.specs.Prelude.{◌≡◌, ◌≤◌, ◌∷◌, [], true, is_some, length, map, nat_le, IfOk};
ghost use Rattle.lb_base.specs.declared.key.Key.TheVariants as keys;
ghost use Rattle.lb_alter.specs.ChangeTable as definitions;
ghost use Rattle.lb_alter.specs.ChangeTable.{columns_in};
ghost use Rattle.lb_alter.specs.Refusing as refusing;
ghost use Rattle.lb_cat.specs.Catalog as cat;
ghost use Rattle.lb_cat.specs.Stamps.{bare, bare_table, look};
ghost use Rattle.lb_cat.specs.declared.refusal.Refusal.TheVariants as refusals;
ghost use Rattle.lb_cat.specs.declared.refusal.LimitOf.TheVariants as limits;
ghost use Rattle.lb_rows.specs.Tables.{Tables, put_version};
ghost use Rattle.lb_changed.specs.Given.{Passes};
ghost use Rattle.lb_changed.specs.Made.{Makes};
ghost use Rattle.lb_tables.specs.Makeable.{are_makeable, is_makeable};

use crate::elements::{is_key, key_place};
use crate::flaws::{columns_are_few, columns_refusal, flaws_refusal, keys_refusal};
use crate::made::with_rows;
use crate::secured::{labels_refusal, policy_of, policy_refusal};
use crate::types::{column_type, is_label_kind};
use lb_base::{Listing, Name, NoMemory};
use lb_cat::{Catalog, ColumnRec, ColumnRecs, LimitOf, Privileges, TableRec};
use lb_changed::{Changed, Stop, exists, limit};
use lb_rows::TableVersion;
use lb_stmt::{ColumnDef, Element};
use lb_tree::copy_name;
use std::alloc::Global;

/// CREATE TABLE, whose user becomes the owner (CREATE TABLE statement). The first refusal of these: Exists where there is a table of
/// that name; Limit for 64 tables and 64 columns; for each column Exists and Limit for its width; Unknown where PRIMARY KEY names no
/// column, and for the policy; BadTable with what is wrong with a column; Unknown for the label that secures a column.
#[tactic(auto, using(lb_changed::proofs::Steps::steps))]
pub fn create_table(
    alloc: Global,
    catalog: &Catalog,
    user: &Name,
    name: &Name,
    elements: &[Element],
    policy: &Option<Name>,
) -> Result<Changed, Stop>
    ensures { (T : Tables) → Makes catalog.now T (definitions.create_table (bare catalog.now) T user.now name.now elements.now policy.now) result }
{
    table_is_new(alloc, catalog, name)?;
    tables_leave_room(catalog)?;
    columns_are_few(elements)?;
    columns_refusal(alloc, elements)?;
    keys_refusal(alloc, elements)?;
    policy_refusal(alloc, catalog, policy)?;
    flaws_refusal(alloc, policy.is_some(), elements)?;
    labels_refusal(alloc, policy_of(catalog, policy), elements)?;
    created(alloc, catalog, user, name, elements, policy)
}

fn table_is_new(alloc: Global, catalog: &Catalog, name: &Name) -> Result<(), Stop>
    ensures test { Passes (refusing.when (is_some (cat.table_named (bare catalog.now) name.now)) (refusals.Exists name.now)) result }
    ensures stamp { IfOk result (λ _. 0 ≡ look catalog.now (keys.Table name.now)) }
{
    match catalog.table(name) {
        Some(_) => Err(exists(alloc, name)),
        None => Ok(()),
    }
}

fn tables_leave_room(catalog: &Catalog) -> Result<(), Stop>
    ensures { Passes (refusing.when (nat_le 64 (length (bare catalog.now).tables)) (refusals.Limit limits.Tables 64)) result }
{
    if catalog.table_count() >= 64 {
        return Err(limit(LimitOf::Tables, 64));
    }
    Ok(())
}

fn created(
    alloc: Global,
    catalog: &Catalog,
    user: &Name,
    name: &Name,
    elements: &[Element],
    policy: &Option<Name>,
) -> Result<Changed, Stop>
    requires stamp { 0 ≡ look catalog.now (keys.Table name.now) }
    requires few { length (columns_in elements.now) ≤ 64 }
    requires makeable { are_makeable policy.now elements.now ≡ true }
    ensures { (T : Tables) → Makes catalog.now T (refusing.done (cat.put_table (definitions.new_table user.now name.now elements.now policy.now) (bare catalog.now)) (put_version (record { name = name.now; rows = [] }) T) (keys.Table name.now ∷ keys.Rows name.now ∷ [])) result }
{
    let rec = new_table(alloc, user, name, elements, policy)?;
    let version = TableVersion::empty(alloc, name)?;
    with_rows(alloc, catalog, rec, version)
}

fn new_table(
    alloc: Global,
    user: &Name,
    name: &Name,
    elements: &[Element],
    policy: &Option<Name>,
) -> Result<TableRec, NoMemory>
    requires few { length (columns_in elements.now) ≤ 64 }
    requires makeable { are_makeable policy.now elements.now ≡ true }
    ensures bare { IfOk result (λ t. bare_table t ≡ definitions.new_table user.now name.now elements.now policy.now) }
    ensures name { IfOk result (λ t. t.name ≡ name.now) }
    ensures stamp { IfOk result (λ t. t.stamp ≡ 0) }
{
    let name = name.copy()?;
    let owner = user.copy()?;
    let columns = new_columns(alloc, elements, policy)?;
    let policy = copy_name(policy)?;
    Ok(TableRec {
        name,
        owner,
        columns,
        key: key_place(elements),
        policy,
        row_control: false,
        column_control: false,
        permissions: Listing::empty(alloc),
        masks: Listing::empty(alloc),
        public: Privileges {
            select: false,
            insert: false,
            update: false,
            delete: false,
        },
        stamp: 0,
    })
}

fn new_columns(
    alloc: Global,
    elements: &[Element],
    policy: &Option<Name>,
) -> Result<ColumnRecs, NoMemory>
    requires { are_makeable policy.now elements.now ≡ true }
    ensures { IfOk result (λ cs. cs ≡ map (definitions.new_column elements.now policy.now) (columns_in elements.now)) }
{
    let mut columns = Listing::empty(alloc);
    for element in elements {
        let Element::Column(column) = element else {
            continue;
        };
        columns.push(new_column(elements, policy, column)?)?;
    }
    Ok(columns)
}

fn new_column(
    elements: &[Element],
    policy: &Option<Name>,
    column: &ColumnDef,
) -> Result<ColumnRec, NoMemory>
    requires { is_makeable policy.now column.now ≡ true }
    ensures { IfOk result (λ c. c ≡ definitions.new_column elements.now policy.now column.now) }
{
    let name = column.name.copy()?;
    let ty = column_type(policy, column.ty)?;
    let secured = copy_name(&column.secured)?;
    let not_null = (column.not_null && !is_label_kind(column.ty)) || is_key(elements, column);
    Ok(ColumnRec {
        name,
        ty,
        not_null,
        secured,
    })
}
