// The target columns of INSERT and UPDATE: each is in the table, and none stands twice.
ghost use Rattle.std.specs.Prelude.{◌≡◌, ◌<◌, [], length, map, take, IfOk};
ghost use Rattle.lb_alter.specs.Naming.{field_of};
ghost use Rattle.lb_names.specs.Statements as statements;
ghost use Rattle.lb_scope.specs.Found.{catalogue};
ghost use Rattle.lb_resolve.specs.Passing.{Passes};

use crate::mark::{exists, holds, unknown};
use crate::stop::Stop;
use lb_base::{Name, NoMemory};
use lb_cat::{Catalog, ColumnRec};
use lb_scope::{column_named, columns_in, columns_of};
use lb_stmt::{Assignment, Stmt};
use sqlite_items::Items;
use std::alloc::Global;

/// The target columns of a statement.
pub fn target_columns(alloc: Global, catalog: &Catalog, stmt: &Stmt) -> Result<(), Stop>
    ensures { Passes result (statements.target_columns_refused (catalogue catalog.now) stmt.now) }
{
    match stmt {
        Stmt::Insert(insert) => match &insert.columns {
            Some(names) => targets(alloc, columns_in(catalog, &insert.table), names.as_slice()),
            None => Ok(()),
        },
        Stmt::Update(update) => {
            let names = assigned(alloc, update.assignments.as_slice())?;
            targets(alloc, columns_of(catalog, &update.target), names.as_slice())
        }
        Stmt::Select(_) | Stmt::Delete(_) | Stmt::Change(_) => Ok(()),
    }
}

/// The columns on the left of `=`.
fn assigned(alloc: Global, assignments: &[Assignment]) -> Result<Items<Name>, NoMemory>
    ensures { IfOk result (λ n. n ≡ map (λ a. a.column) assignments.now) }
{
    let mut names = Items::new(alloc);
    for assignment in assignments {
        names.push(assignment.column.copy()?)?;
    }
    Ok(names)
}

#[tactic(auto, using(crate::proofs::Rules::passing))]
fn targets(alloc: Global, columns: &[ColumnRec], names: &[Name]) -> Result<(), Stop>
    ensures { Passes result (statements.targets_refused (map field_of columns.now) [] names.now) }
{
    for (place, name) in names.iter().enumerate() {
        target(alloc, columns, before(names, place), name)?;
    }
    Ok(())
}

fn before(names: &[Name], place: usize) -> &[Name]
    requires { place < length names.now }
    ensures { result.now ≡ take place names.now }
{
    &names[..place]
}

/// A target column that stands after these.
fn target(alloc: Global, columns: &[ColumnRec], before: &[Name], name: &Name) -> Result<(), Stop>
    ensures { Passes result (statements.target_refused (map field_of columns.now) before.now name.now) }
{
    match column_named(name, columns) {
        Some(_) if holds(name, before) => exists(alloc, name),
        Some(_) => Ok(()),
        None => unknown(alloc, name.as_str()),
    }
}
