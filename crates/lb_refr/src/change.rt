// Changes of the catalogue: CREATE TABLE, CREATE PERMISSION, ALTER TABLE .. ACTIVATE ROW ACCESS CONTROL.
ghost use Rattle.std.specs.Prelude.{◌≡◌, ◌∷◌, [], ◌++◌, IfOk, OnOk, OnErr};
ghost use Rattle.std.specs.List.{filter_map};
ghost use Rattle.lb_model.specs.Catalog.{Tables, put_version, table_named};
ghost use Rattle.lb_model.specs.Change.{type_of, width_of, column_of, create_table as create_table_meant, create_permission as create_permission_meant, activate as activate_meant, change as change_meant};
ghost use Rattle.lb_refr.specs.Leaves.{Leaves};

use crate::find::{is_permission, place_of_table, place_of_version, table_of};
use crate::permission::{missing_column, new_permission};
use crate::refused::{exists, unknown};
use lb_base::{Listing, Name, NoMemory, Ty};
use lb_cat::Reply;
use lb_model::{ColumnRec, TableRec, TableVersion};
use lb_stmt::{Change, ColumnType, Element, PermissionDef, PlainType};
use std::alloc::Global;

/// Runs a change of the user. After `Err` records and rows are as they were.
pub fn run_change(
    alloc: Global,
    user: &Name,
    change: &Change,
    tables: &mut Vec<TableRec>,
    versions: &mut Vec<TableVersion>,
) -> Result<Reply, NoMemory>
    ensures ok { let made = change_meant (record { tables = tables.old.items }) versions.old.items user.now change.now in
        IfOk result (Leaves made tables.new.items versions.new.items) }
    ensures tables { OnErr result (tables.new.items ≡ tables.old.items) }
    ensures versions { OnErr result (versions.new.items ≡ versions.old.items) }
{
    match change {
        Change::CreateTable(name, elements, _) => {
            create_table(alloc, user, name, elements.as_slice(), tables, versions)
        }
        Change::CreatePermission(definition) => create_permission(alloc, definition, tables),
        Change::Activate(name, _, _) => activate(alloc, name, tables),
        _ => Ok(Reply::Done),
    }
}

// CREATE TABLE statement: a table without rows goes last, owned by the user.
fn create_table(
    alloc: Global,
    user: &Name,
    name: &Name,
    elements: &[Element],
    tables: &mut Vec<TableRec>,
    versions: &mut Vec<TableVersion>,
) -> Result<Reply, NoMemory>
    ensures ok { let made = create_table_meant (table_named name.now tables.old.items) (record { tables = tables.old.items }) versions.old.items user.now name.now elements.now in
        IfOk result (Leaves made tables.new.items versions.new.items) }
    ensures tables { OnErr result (tables.new.items ≡ tables.old.items) }
    ensures versions { OnErr result (versions.new.items ≡ versions.old.items) }
{
    if table_of(tables, name.as_str()).is_some() {
        return exists(alloc, name.as_str());
    }
    let table = TableRec {
        name: name.copy()?,
        owner: user.copy()?,
        columns: column_records(alloc, elements)?,
        row_control: false,
        permissions: Listing::empty(alloc),
    };
    let version = TableVersion {
        name: name.copy()?,
        rows: Listing::empty(alloc),
    };
    add_table(table, version, tables, versions)?;
    Ok(Reply::Done)
}

// Both go in, or where memory is refused neither.
fn add_table(
    table: TableRec,
    version: TableVersion,
    tables: &mut Vec<TableRec>,
    versions: &mut Vec<TableVersion>,
) -> Result<(), NoMemory>
    ensures tables_ok { OnOk result (tables.new.items ≡ tables.old.items ++ table ∷ []) }
    ensures versions_ok { OnOk result (versions.new.items ≡ put_version version versions.old.items) }
    ensures tables { OnErr result (tables.new.items ≡ tables.old.items) }
    ensures versions { OnErr result (versions.new.items ≡ versions.old.items) }
{
    tables.reserve(1)?;
    put(version, versions)?;
    match tables.push(table) {
        Ok(()) => Ok(()),
        Err(_) => unreachable!(),
    }
}

// The rows take the place of those of their table, or go last.
fn put(version: TableVersion, versions: &mut Vec<TableVersion>) -> Result<(), NoMemory>
    ensures ok { OnOk result (versions.new.items ≡ put_version version versions.old.items) }
    ensures err { OnErr result (versions.new.items ≡ versions.old.items) }
{
    match place_of_version(versions, version.name.as_str()) {
        Some(i) => {
            versions[i] = version;
            Ok(())
        }
        None => {
            versions.push(version)?;
            Ok(())
        }
    }
}

fn column_records(alloc: Global, elements: &[Element]) -> Result<Listing<ColumnRec>, NoMemory>
    ensures { IfOk result (λ columns. columns ≡ filter_map column_of elements.now) }
{
    let mut columns = Listing::empty(alloc);
    for element in elements {
        if let Element::Column(definition) = element {
            let name = definition.name.copy()?;
            let ty = column_type(definition.ty);
            columns.push(ColumnRec { name, ty })?;
        }
    }
    Ok(columns)
}

fn column_type(ty: ColumnType) -> Ty
    ensures { result ≡ type_of ty }
{
    match ty {
        ColumnType::Plain(PlainType::Text(width)) => Ty::Text(kept_width(width)),
        ColumnType::Plain(PlainType::Date) => Ty::Date,
        ColumnType::Plain(PlainType::Int) | ColumnType::Label => Ty::Int,
    }
}

fn kept_width(width: i64) -> u32
    ensures { result ≡ width_of width }
{
    match u32::try_from(width) {
        Ok(width) => width,
        Err(_) => 0,
    }
}

// CREATE PERMISSION statement: the permission goes last among those of its table.
fn create_permission(
    alloc: Global,
    definition: &PermissionDef,
    tables: &mut Vec<TableRec>,
) -> Result<Reply, NoMemory>
    ensures ok { (rows : Tables) → let made = create_permission_meant (table_named definition.now.on.table tables.old.items) (record { tables = tables.old.items }) rows definition.now in
        IfOk result (Leaves made tables.new.items rows) }
    ensures err { OnErr result (tables.new.items ≡ tables.old.items) }
{
    let table_name = definition.on.table.as_str();
    let Some(i) = place_of_table(tables, table_name) else {
        return unknown(alloc, table_name);
    };
    if is_permission(&definition.name, tables) {
        return exists(alloc, definition.name.as_str());
    }
    if let Some(missing) = missing_column(tables[i].columns.as_slice(), &definition.condition) {
        return unknown(alloc, missing.as_str());
    }
    let permission = new_permission(alloc, definition)?;
    tables[i].permissions.push(permission)?;
    Ok(Reply::Done)
}

// ALTER TABLE statement, ACTIVATE ROW ACCESS CONTROL.
fn activate(alloc: Global, name: &Name, tables: &mut Vec<TableRec>) -> Result<Reply, NoMemory>
    ensures ok { (rows : Tables) → let made = activate_meant (table_named name.now tables.old.items) (record { tables = tables.old.items }) rows name.now in
        IfOk result (Leaves made tables.new.items rows) }
    ensures err { OnErr result (tables.new.items ≡ tables.old.items) }
{
    let Some(i) = place_of_table(tables, name.as_str()) else {
        return unknown(alloc, name.as_str());
    };
    tables[i].row_control = true;
    Ok(Reply::Done)
}
