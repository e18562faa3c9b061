// Runs INSERT with VALUES: all its rows go last, or none.
ghost use Rattle.std.specs.Prelude.{◌≡◌, ◌++◌, map, IfOk, OnOk, OnErr};
ghost use Rattle.lb_model.specs.Catalog.{table_named, rows_of, put_version, put_maybe};
ghost use Rattle.lb_model.specs.Answer.{literal_value, given_rows as rows_of_source, insert_into};
ghost use Rattle.lb_model.specs.NotYet.{rows_given};

use crate::condition::{are_rows_insertable, enabled_names};
use crate::find::{place_of_version, table_of};
use crate::refused::unknown;
use lb_base::{Listing, Name, NoMemory, Row, RowList, Str, Value};
use lb_cat::{Refusal, Reply, Verb};
use lb_model::{TableRec, TableVersion};
use lb_stmt::{InsertSource, Stmt};
use lb_tree::{Atom, Expr};
use sqlite_items::Items;
use std::alloc::Global;

/// The rows that the statement gives, where it is an INSERT of VALUES, else none.
pub fn given_rows(alloc: Global, stmt: &Stmt) -> Result<RowList, NoMemory>
    ensures { IfOk result (λ rows. rows ≡ rows_given stmt.now) }
{
    match stmt {
        Stmt::Insert(insert) => source_rows(alloc, &insert.source),
        _ => Ok(Listing::empty(alloc)),
    }
}

fn source_rows(alloc: Global, source: &InsertSource) -> Result<RowList, NoMemory>
    ensures { IfOk result (λ rows. rows ≡ rows_of_source source.now) }
{
    match source {
        InsertSource::Rows(rows) => literal_rows(alloc, rows.as_slice()),
        InsertSource::Query(_) => Ok(Listing::empty(alloc)),
    }
}

fn literal_rows(alloc: Global, rows: &[Items<Expr>]) -> Result<RowList, NoMemory>
    ensures { IfOk result (λ r. r ≡ map (map literal_value) rows.now) }
{
    let mut made = Listing::empty(alloc);
    for row in rows {
        made.push(literal_row(alloc, row.as_slice())?)?;
    }
    Ok(made)
}

fn literal_row(alloc: Global, row: &[Expr]) -> Result<Row, NoMemory>
    ensures { IfOk result (λ r. r ≡ map literal_value row.now) }
{
    let mut made = Listing::empty(alloc);
    for expr in row {
        made.push(literal(expr)?)?;
    }
    Ok(made)
}

fn literal(expr: &Expr) -> Result<Value, NoMemory>
    ensures { IfOk result (λ v. v ≡ literal_value expr.now) }
{
    match expr {
        Expr::Atom(Atom::Text(text)) => Ok(Value::Text(text.copy()?)),
        _ => Ok(Value::Null),
    }
}

/// Inserts the rows into the table of that name: all of them, or where one of them is not allowed none
/// (Row access control). After `Err` the rows are as they were.
pub fn insert(
    alloc: Global,
    user: &Name,
    name: &Name,
    rows: RowList,
    tables: &[TableRec],
    versions: &mut Vec<TableVersion>,
) -> Result<Reply, NoMemory>
    ensures reply { IfOk result (λ r. r ≡ (insert_into user.now name.now (table_named name.now tables.now) rows versions.old.items).reply) }
    ensures after { OnOk result (versions.new.items ≡ put_maybe (insert_into user.now name.now (table_named name.now tables.now) rows versions.old.items).table versions.old.items) }
    ensures err { OnErr result (versions.new.items ≡ versions.old.items) }
{
    let Some(table) = table_of(tables, name.as_str()) else {
        return unknown(alloc, name.as_str());
    };
    if are_rows_insertable(user, table, rows.as_slice()) {
        let count = rows.len() as u64;
        add_rows(versions, name, rows)?;
        Ok(Reply::Wrote(Verb::Inserted, count))
    } else {
        let table_name = Str::of(alloc, name.as_str())?;
        let tried = enabled_names(alloc, table)?;
        Ok(Reply::Refused(Refusal::RowPermission(table_name, tried)))
    }
}

// Puts the rows after those of the table.
fn add_rows(versions: &mut Vec<TableVersion>, name: &Name, rows: RowList) -> Result<(), NoMemory>
    ensures ok { OnOk result (versions.new.items ≡ put_version (record { name = name.now; rows = rows_of name.now versions.old.items ++ rows }) versions.old.items) }
    ensures err { OnErr result (versions.new.items ≡ versions.old.items) }
{
    match place_of_version(versions, name.as_str()) {
        Some(i) => versions[i].rows.append(rows),
        None => {
            let version = TableVersion {
                name: name.copy()?,
                rows,
            };
            versions.push(version)?;
            Ok(())
        }
    }
}
