// The types of an INSERT: VALUES or a source query, for the columns that are given.
ghost use Rattle.std.specs.Prelude.{◌≡◌, ◌++◌, IfOk, length, map, Option, option_map};
ghost use Rattle.std.specs.Option.{option_copied};
ghost use Rattle.lb_alter.specs.Naming.{field_of};
ghost use Rattle.lb_names.specs.Statements as statements;
ghost use Rattle.lb_names.specs.Typing as trees;
ghost use Rattle.lb_scope.specs.Found.{catalogue, kind_in};
ghost use Rattle.lb_types.specs.Given.{Gives, Goes, kinds_in, place_in};
ghost use Rattle.lb_typing.specs.Given.{Tells, value_at};

use crate::orders::select_typed;
use crate::place::place_over;
use lb_base::{Listing, Name, NoMemory};
use lb_cat::{Catalog, ColumnRec};
use lb_scope::{Kind, Sight, column_named, columns_of, kind_of as kind_of_type};
use lb_stmt::{Insert, InsertSource};
use lb_tree::{Expr, Tab};
use lb_types::{Place, Stop, kind_of, takes};
use sqlite_items::Items;
use std::alloc::Global;

/// VALUES or the source query, for the columns that are given.
#[tactic(auto, using(crate::proofs::Tellings::telling))]
pub fn insert_typed(catalog: &Catalog, alloc: Global, insert: &Insert) -> Result<u32, Stop>
    ensures { Tells result (statements.source_types_refused (catalogue catalog.now) (statements.kinds_given (catalogue catalog.now) insert.now.table insert.now.columns) insert.now.source) }
{
    let kinds = kinds_given(catalog, alloc, insert)?;
    match &insert.source {
        InsertSource::Rows(rows) => rows_typed(catalog, alloc, kinds.as_slice(), rows.as_slice()),
        InsertSource::Query(select) => select_typed(catalog, alloc, select, Some(kinds.as_slice())),
    }
}

/// The kinds of the columns that an INSERT gives, all of the table's where none is written.
fn kinds_given<'a>(
    catalog: &'a Catalog,
    alloc: Global,
    insert: &Insert,
) -> Result<Listing<Kind<'a>>, NoMemory>
    ensures { IfOk result (λ k. kinds_in k ≡ statements.kinds_given (catalogue catalog.now) insert.now.table insert.now.columns) }
{
    let table = insert.table.copy()?;
    let tab = Tab {
        table,
        correlation: None,
    };
    let columns = columns_of(catalog, &tab);
    match &insert.columns {
        None => kinds_of_all(alloc, columns),
        Some(names) => kinds_wanted(alloc, columns, names.as_slice()),
    }
}

/// The kinds of all columns, each looked up by its name.
fn kinds_of_all<'a>(alloc: Global, columns: &'a [ColumnRec]) -> Result<Listing<Kind<'a>>, NoMemory>
    ensures { IfOk result (λ k. kinds_in k ≡ statements.kinds_wanted (map field_of columns.now) (map (λ f. f.name) (map field_of columns.now))) }
{
    let mut kinds = Listing::empty(alloc);
    for column in columns {
        kinds = with_kind_of(kinds, column_named(&column.name, columns))?;
    }
    Ok(kinds)
}

/// The kinds of the columns with these names.
fn kinds_wanted<'a>(
    alloc: Global,
    columns: &'a [ColumnRec],
    names: &[Name],
) -> Result<Listing<Kind<'a>>, NoMemory>
    ensures { IfOk result (λ k. kinds_in k ≡ statements.kinds_wanted (map field_of columns.now) names.now) }
{
    let mut kinds = Listing::empty(alloc);
    for name in names {
        kinds = with_kind_of(kinds, column_named(name, columns))?;
    }
    Ok(kinds)
}

/// These kinds, and then that of the column, where there is one.
fn with_kind_of<'a>(
    kinds: Listing<Kind<'a>>,
    column: Option<&'a ColumnRec>,
) -> Result<Listing<Kind<'a>>, NoMemory>
    ensures { IfOk result (λ k. kinds_in k ≡ kinds_in kinds.entry ++ statements.kind_in (option_map field_of (option_copied column.entry))) }
{
    let mut all = kinds;
    match column {
        None => Ok(all),
        Some(column) => {
            all.push(kind_of_type(&column.ty))?;
            Ok(all)
        }
    }
}

/// The rows of VALUES, each in its turn.
#[tactic(auto, using(crate::proofs::Tellings::telling))]
fn rows_typed(
    catalog: &Catalog,
    alloc: Global,
    columns: &[Kind<'_>],
    rows: &[Items<Expr>],
) -> Result<u32, Stop>
    ensures { Goes result (statements.rows_typed (catalogue catalog.now) (kinds_in columns.now) rows.now 0) }
{
    let nothing = Sight::nothing(alloc);
    let place = place_over(&nothing, false, false);
    let mut n = 0;
    for row in rows {
        n = row_typed(catalog, alloc, columns, row.as_slice(), place, n)?;
    }
    Ok(n)
}

/// A row of VALUES has as many values as there are columns; else it is broken at its first value, unless a part of that is.
#[tactic(auto, using(crate::proofs::Tellings::telling))]
fn row_typed(
    catalog: &Catalog,
    alloc: Global,
    columns: &[Kind<'_>],
    row: &[Expr],
    place: Place<'_>,
    number: u32,
) -> Result<u32, Stop>
    requires { place_in (catalogue catalog.now) place ≡ statements.values_place }
    ensures { Goes result (statements.row_typed (catalogue catalog.now) (kinds_in columns.now) row.now number) }
{
    if columns.len() == row.len() {
        return values_typed(catalog, alloc, columns, row, place, number);
    }
    match row.first() {
        None => Ok(number),
        Some(value) => {
            kind_of(catalog, alloc, value, place, number)?;
            Err(Stop::Broken(number))
        }
    }
}

/// Each value has its column's kind.
#[tactic(auto, using(crate::proofs::Tellings::telling))]
fn values_typed(
    catalog: &Catalog,
    alloc: Global,
    columns: &[Kind<'_>],
    values: &[Expr],
    place: Place<'_>,
    number: u32,
) -> Result<u32, Stop>
    requires paired { length columns.now ≡ length values.now }
    requires at_values { place_in (catalogue catalog.now) place ≡ statements.values_place }
    ensures { Goes result (statements.values_typed (catalogue catalog.now) (kinds_in columns.now) values.now number) }
{
    let mut n = number;
    for (i, value) in values.iter().enumerate() {
        let (_, after) = value_typed(catalog, alloc, columns[i], value, place, n)?;
        n = after;
    }
    Ok(n)
}

#[tactic(auto, using(crate::proofs::Tellings::telling))]
fn value_typed<'a>(
    catalog: &'a Catalog,
    alloc: Global,
    column: Kind<'_>,
    value: &'a Expr,
    place: Place<'_>,
    at: u32,
) -> Result<(Kind<'a>, u32), Stop>
    ensures { Gives kind_in result (value_at (place_in (catalogue catalog.now) place.entry) (trees.means (catalogue catalog.now) value.now) (kind_in column.entry) at) }
{
    let (kind, n) = kind_of(catalog, alloc, value, place, at)?;
    if takes(column, kind) {
        Ok((kind, n))
    } else {
        Err(Stop::Broken(at))
    }
}
