// The statements on access control.
ghost use Rattle.std.specs.Prelude.{◌≡◌, true, IfOk};
ghost use Rattle.lb_alter.specs.Naming.{stored_rules};
ghost use Rattle.lb_alter.specs.Sound.{IsSound};
ghost use Rattle.lb_cat.specs.Stamps.{bare};
ghost use Rattle.lb_rows.specs.Stamped.{rows_only};
ghost use Rattle.lb_settled.specs.Statements.{LeavesOf, is_change_of_control};

use crate::controls::controlled;
use lb_base::NoMemory;
use lb_cat::{Catalog, Said};
use lb_changed::Changed;
use lb_rows::Snap;
use lb_settled::settled;
use lb_stmt::Stmt;
use std::alloc::Global;

/// What the statement of a user leaves: every change of the catalogue that is none of tables and of privileges on them. A refusal leaves
/// the same catalogue and touches nothing. The only error is that memory ran out, and then nothing is left of the statement.
pub fn change(
    alloc: Global,
    catalog: &Catalog,
    tables: &Snap,
    said: &Said,
    stmt: &Stmt,
) -> Result<Changed, NoMemory>
    requires kind { is_change_of_control stmt.now ≡ true }
    requires sound { IsSound stored_rules (bare catalog.now) }
    ensures { IfOk result (LeavesOf catalog.now (rows_only tables.now) said.now.user stmt.now) }
{
    match stmt {
        Stmt::Change(change) => {
            let attempted = controlled(alloc, catalog, &said.user, change);
            settled(alloc, catalog, attempted)
        }
        _ => unreachable!(),
    }
}
