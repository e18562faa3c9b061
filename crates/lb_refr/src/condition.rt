// Row access control: which rows a user sees and may write.
ghost use Rattle.std.specs.Prelude.{◌≡◌, ◌||◌, not, map, IfOk};
ghost use Rattle.std.specs.Option.{option_copied};
ghost use Rattle.std.specs.List.{list_all};
ghost use Rattle.lb_model.specs.Evaluation.{frame_of, is_qualified_by, column_value, value_of, truth_of};
ghost use Rattle.lb_model.specs.Visible.{enabled, grants, is_allowed};
ghost use Rattle.lb_model.specs.Answer.{are_insertable};
ghost use Rattle.lb_refr.specs.Texts.{text_of, same_text};

use lb_base::{Listing, Name, Names, NoMemory, Row, Truth, Value};
use lb_model::{ColumnRec, PermissionRec, TableRec};
use lb_tree::{Atom, Column, Comparison, Cond, Expr};
use std::alloc::Global;

/// Whether the user may see or write the row: some enabled permission of the table is true for it
/// (CREATE PERMISSION statement, Row access control).
pub fn is_row_allowed(user: &Name, table: &TableRec, row: &[Value]) -> bool
    ensures { result ≡ is_allowed user.now table.now row.now }
{
    let permissions = table.permissions.as_slice();
    let mut enabled = permissions.iter().filter(|permission| permission.enabled);
    enabled.any(|permission| is_granted(user, table, row, permission))
}

/// Whether each of the rows may be inserted.
pub fn are_rows_insertable(user: &Name, table: &TableRec, rows: &[Row]) -> bool
    ensures { result ≡ are_insertable user.now table.now rows.now }
{
    !table.row_control || are_rows_allowed(user, table, rows)
}

fn are_rows_allowed(user: &Name, table: &TableRec, rows: &[Row]) -> bool
    ensures { result ≡ list_all (is_allowed user.now table.now) rows.now }
{
    for row in rows {
        if !is_row_allowed(user, table, row.as_slice()) {
            return false;
        }
    }
    true
}

/// The names of the enabled permissions, in the order of creation.
pub fn enabled_names(alloc: Global, table: &TableRec) -> Result<Names, NoMemory>
    ensures { IfOk result (λ names. names ≡ map (λ p. p.name) (enabled table.now)) }
{
    let mut names = Listing::empty(alloc);
    for permission in table.permissions.as_slice() {
        if permission.enabled {
            names.push(permission.name.copy()?)?;
        }
    }
    Ok(names)
}

fn is_granted(user: &Name, table: &TableRec, row: &[Value], permission: &PermissionRec) -> bool
    ensures { result ≡ grants user.now table.now row.now permission.now }
{
    let columns = table.columns.as_slice();
    let truth = truth_in(
        user,
        &permission.correlation,
        columns,
        row,
        &permission.condition,
    );
    match truth {
        Truth::True => true,
        Truth::False | Truth::Unknown => false,
    }
}

// The truth of a stored condition over a row: a comparison is unknown where an operand is null.
fn truth_in(
    user: &Name,
    correlation: &Name,
    columns: &[ColumnRec],
    row: &[Value],
    condition: &Cond,
) -> Truth
    ensures { result ≡ truth_of user.now (frame_of correlation.now columns.now row.now) condition.now }
{
    match condition {
        Cond::Compare(Comparison::Equal, a, b) => compared(
            operand(user, correlation, columns, row, a.get()),
            operand(user, correlation, columns, row, b.get()),
        ),
        _ => Truth::Unknown,
    }
}

fn compared(a: Option<&str>, b: Option<&str>) -> Truth
    ensures { result ≡ same_text (option_copied a.entry) (option_copied b.entry) }
{
    match (a, b) {
        (Some(a), Some(b)) => Truth::of(a == b),
        _ => Truth::Unknown,
    }
}

// The text that an operand stands for, if it stands for one.
fn operand<'a>(
    user: &'a Name,
    correlation: &Name,
    columns: &[ColumnRec],
    row: &'a [Value],
    expr: &Expr,
) -> Option<&'a str>
    ensures { option_copied result ≡ text_of (value_of user.now (frame_of correlation.now columns.now row.now) expr.now) }
{
    match expr {
        Expr::Atom(Atom::Column(column)) => text_in(column, correlation, columns, row),
        Expr::Atom(Atom::SessionUser) => Some(user.as_str()),
        _ => None,
    }
}

fn text_in<'a>(
    column: &Column,
    correlation: &Name,
    columns: &[ColumnRec],
    row: &'a [Value],
) -> Option<&'a str>
    ensures { option_copied result ≡ text_of (column_value column.now (frame_of correlation.now columns.now row.now)) }
{
    for (i, record) in columns.iter().enumerate() {
        let Some(value) = row.get(i) else {
            return None;
        };
        if is_qualified(column, correlation) && column.name.is(&record.name) {
            return text_value(value);
        }
    }
    None
}

fn is_qualified(column: &Column, correlation: &Name) -> bool
    ensures { result ≡ is_qualified_by column.now.correlation correlation.now }
{
    match &column.correlation {
        None => true,
        Some(written) => written.is(correlation),
    }
}

fn text_value(value: &Value) -> Option<&str>
    ensures { option_copied result ≡ text_of value.now }
{
    match value {
        Value::Text(text) => Some(text.as_str()),
        _ => None,
    }
}
