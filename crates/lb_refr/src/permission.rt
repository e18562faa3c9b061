// CREATE PERMISSION statement: the columns of its condition, and the condition as it is stored.
ghost use Rattle.std.specs.Prelude.{◌≡◌, IfOk};
ghost use Rattle.std.specs.Option.{option_copied};
ghost use Rattle.lb_tree.specs.declared.query.Cond.TheViews.{out-Expr};
ghost use Rattle.lb_model.specs.Change.{columns_in, columns_of, first_missing, qualified_expr, qualified, is_enabled, name_or, new_permission as permission_meant};

use crate::find::is_column;
use lb_base::{Name, NoMemory};
use lb_model::{ColumnRec, PermissionRec};
use lb_stmt::{PermissionDef, Switch};
use lb_tree::{Atom, Column, Cond, Expr, Tab};
use sqlite_items::Boxed;
use std::alloc::Global;

/// The first column of the condition that the table lacks.
pub fn missing_column<'a>(columns: &[ColumnRec], condition: &'a Cond) -> Option<&'a Name>
    ensures { option_copied result ≡ first_missing columns.now (columns_of condition.now) }
{
    match condition {
        Cond::Compare(_, a, b) => match missing_in(columns, a.get()) {
            Some(missing) => Some(missing),
            None => missing_in(columns, b.get()),
        },
        _ => None,
    }
}

fn missing_in<'a>(columns: &[ColumnRec], expr: &'a Expr) -> Option<&'a Name>
    ensures { option_copied result ≡ first_missing columns.now (columns_in (out-Expr expr.now)) }
{
    match expr {
        Expr::Atom(Atom::Column(column)) => {
            if is_column(&column.name, columns) {
                None
            } else {
                Some(&column.name)
            }
        }
        _ => None,
    }
}

/// The permission as the catalogue keeps it.
pub fn new_permission(alloc: Global, definition: &PermissionDef) -> Result<PermissionRec, NoMemory>
    ensures { IfOk result (λ p. p ≡ permission_meant definition.now) }
{
    let correlation = correlation_of(&definition.on);
    let condition = qualified_condition(alloc, correlation, &definition.condition)?;
    Ok(PermissionRec {
        name: definition.name.copy()?,
        correlation: correlation.copy()?,
        condition,
        enabled: is_on(definition.switch),
    })
}

fn correlation_of(on: &Tab) -> &Name
    ensures { result.now ≡ name_or on.now.correlation on.now.table }
{
    match &on.correlation {
        Some(written) => written,
        None => &on.table,
    }
}

/// Whether the switch is ENABLE.
pub fn is_on(switch: Switch) -> bool
    ensures { result ≡ is_enabled switch }
{
    match switch {
        Switch::Enable => true,
        Switch::Disable => false,
    }
}

// The condition with each of its columns qualified.
fn qualified_condition(
    alloc: Global,
    correlation: &Name,
    condition: &Cond,
) -> Result<Cond, NoMemory>
    ensures { IfOk result (λ q. q ≡ qualified correlation.now condition.now) }
{
    match condition {
        Cond::Compare(by, a, b) => {
            let a = qualified_operand(alloc, correlation, a.get())?;
            let b = qualified_operand(alloc, correlation, b.get())?;
            Ok(Cond::Compare(*by, a, b))
        }
        other => other.copy(alloc),
    }
}

fn qualified_operand(
    alloc: Global,
    correlation: &Name,
    expr: &Expr,
) -> Result<Boxed<Expr>, NoMemory>
    ensures { IfOk result (λ e. e ≡ qualified_expr correlation.now expr.now) }
{
    let expr = qualified_value(alloc, correlation, expr)?;
    Boxed::new(alloc, expr)
}

fn qualified_value(alloc: Global, correlation: &Name, expr: &Expr) -> Result<Expr, NoMemory>
    ensures { IfOk result (λ e. e ≡ qualified_expr correlation.now expr.now) }
{
    match expr {
        Expr::Atom(Atom::Column(column)) => {
            let column = Column {
                correlation: Some(correlation.copy()?),
                name: column.name.copy()?,
            };
            Ok(Expr::Atom(Atom::Column(column)))
        }
        other => other.copy(alloc),
    }
}
