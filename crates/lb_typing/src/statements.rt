// The first refusal for types of whole statements: queries, and writes with SET and WHERE.
ghost use Rattle.std.specs.Prelude.{◌≡◌, IfOk, map, option_map};
ghost use Rattle.std.specs.Option.{option_copied};
ghost use Rattle.lb_alter.specs.Naming.{field_of, refusal_for};
ghost use Rattle.lb_names.specs.Statements as statements;
ghost use Rattle.lb_names.specs.Typing as trees;
ghost use Rattle.lb_scope.specs.Found.{catalogue, kind_in};
ghost use Rattle.lb_stmt.specs.declared.write.Stmt.TheVariants as stmts;
ghost use Rattle.lb_types.specs.Given.{Gives, Goes, place_in};
ghost use Rattle.lb_typing.specs.Given.{Tells, assignment_at};

use crate::insert::insert_typed;
use crate::orders::select_typed;
use crate::place::place_over;
use crate::told::told;
use lb_base::NoMemory;
use lb_cat::{Catalog, ColumnRec, Refusal};
use lb_scope::{Kind, Sight, column_named, columns_of, kind_of as kind_of_type};
use lb_stmt::{Assignment, Delete, Stmt, Update};
use lb_tree::Cond;
use lb_types::{Place, Stop, kind_of, takes, typed};
use std::alloc::Global;

/// The first refusal for types of a query or a write: `Types` with the number of the node that breaks a rule of Assignments and
/// comparisons, of the group-by-clause, of the order-by-clause or of an expression's own topic, whose parts break none. Nodes are
/// numbered from 0 in text order, a node before its parts. None where there is no such node, and for a change of the catalogue.
#[tactic(auto, using(crate::proofs::Tellings::telling))]
pub fn types_refused(
    alloc: Global,
    catalog: &Catalog,
    stmt: &Stmt,
) -> Result<Option<Refusal>, NoMemory>
    ensures { IfOk result (λ r. r ≡ option_map refusal_for (statements.types_refused (catalogue catalog.now) stmt.now)) }
{
    match stmt {
        Stmt::Select(select) => told(select_typed(catalog, alloc, select, None)),
        Stmt::Insert(insert) => told(insert_typed(catalog, alloc, insert)),
        Stmt::Update(update) => told(update_typed(catalog, alloc, update)),
        Stmt::Delete(delete) => told(delete_typed(catalog, alloc, delete)),
        Stmt::Change(_) => Ok(None),
    }
}

/// SET, and then WHERE.
#[tactic(auto, using(crate::proofs::Tellings::telling))]
fn update_typed(catalog: &Catalog, alloc: Global, update: &Update) -> Result<u32, Stop>
    ensures { Tells result (statements.types_refused (catalogue catalog.now) (stmts.Update update.now)) }
{
    let sight = Sight::over(alloc, &update.target)?;
    let columns = columns_of(catalog, &update.target);
    let place = place_over(&sight, false, false);
    let n = assignments_typed(
        catalog,
        alloc,
        columns,
        place,
        update.assignments.as_slice(),
    )?;
    where_typed(
        catalog,
        alloc,
        &update.filter,
        place_over(&sight, true, false),
        n,
    )
}

/// Each `column = value` in its turn.
#[tactic(auto, using(crate::proofs::Tellings::telling))]
fn assignments_typed(
    catalog: &Catalog,
    alloc: Global,
    columns: &[ColumnRec],
    place: Place<'_>,
    assignments: &[Assignment],
) -> Result<u32, Stop>
    ensures { Goes result (statements.assignments_typed (catalogue catalog.now) (map field_of columns.now) (place_in (catalogue catalog.now) place.entry) assignments.now 0) }
{
    let mut n = 0;
    for assignment in assignments {
        let (_, after) = assignment_typed(catalog, alloc, columns, place, assignment, n)?;
        n = after;
    }
    Ok(n)
}

#[tactic(auto, using(crate::proofs::Tellings::telling))]
fn assignment_typed<'a>(
    catalog: &'a Catalog,
    alloc: Global,
    columns: &[ColumnRec],
    place: Place<'_>,
    assignment: &'a Assignment,
    at: u32,
) -> Result<(Kind<'a>, u32), Stop>
    ensures { Gives kind_in result (assignment_at (place_in (catalogue catalog.now) place.entry) (trees.means (catalogue catalog.now) assignment.now.value) (statements.kind_wanted (map field_of columns.now) assignment.now.column) at) }
{
    let (kind, n) = kind_of(catalog, alloc, &assignment.value, place, at)?;
    if is_taken_by(column_named(&assignment.column, columns), kind) {
        Ok((kind, n))
    } else {
        Err(Stop::Broken(at))
    }
}

/// Whether the column takes a value of that kind.
fn is_taken_by(column: Option<&ColumnRec>, kind: Kind<'_>) -> bool
    ensures { result ≡ statements.is_taken_by (statements.kind_in (option_map field_of (option_copied column.entry))) (kind_in kind.entry) }
{
    match column {
        None => false,
        Some(column) => takes(kind_of_type(&column.ty), kind),
    }
}

/// WHERE of a DELETE.
#[tactic(auto, using(crate::proofs::Tellings::telling))]
fn delete_typed(catalog: &Catalog, alloc: Global, delete: &Delete) -> Result<u32, Stop>
    ensures { Tells result (statements.types_refused (catalogue catalog.now) (stmts.Delete delete.now)) }
{
    let sight = Sight::over(alloc, &delete.target)?;
    where_typed(
        catalog,
        alloc,
        &delete.filter,
        place_over(&sight, true, false),
        0,
    )
}

/// WHERE, where it is written.
#[tactic(auto, using(crate::proofs::Tellings::telling))]
fn where_typed(
    catalog: &Catalog,
    alloc: Global,
    filter: &Option<Cond>,
    place: Place<'_>,
    number: u32,
) -> Result<u32, Stop>
    ensures { Goes result (statements.where_typed (catalogue catalog.now) (place_in (catalogue catalog.now) place.entry) filter.now number) }
{
    match filter {
        None => Ok(number),
        Some(cond) => typed(catalog, alloc, cond, place, number),
    }
}
