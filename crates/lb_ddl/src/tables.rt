// Each statement on tables, by the function that makes it.
ghost use Rattle.std.specs.Prelude.{◌≡◌, true, IfOk};
ghost use Rattle.lb_alter.specs.Change.{attempt};
ghost use Rattle.lb_alter.specs.Named.{HasOneOfEachName};
ghost use Rattle.lb_alter.specs.Naming.{stored_rules};
ghost use Rattle.lb_alter.specs.Sound.{IsSound};
ghost use Rattle.lb_cat.specs.Stamps.{bare};
ghost use Rattle.lb_rows.specs.Stamped.{rows_only};
ghost use Rattle.lb_changed.specs.Made.{Makes};
ghost use Rattle.lb_settled.specs.Statements.{LeavesOf, is_change_of_tables, is_of_tables};

use lb_base::{Name, NoMemory};
use lb_cat::{Catalog, Said};
use lb_changed::{Changed, Stop};
use lb_drop::drop_table;
use lb_grant::{grant_privileges, revoke_privileges};
use lb_rows::Snap;
use lb_settled::settled;
use lb_stmt::{Change, Stmt};
use lb_tables::{add_column, add_policy, create_table, secure_column, unsecure_column};
use std::alloc::Global;

/// What the statement of a user leaves: CREATE TABLE, DROP TABLE, ALTER TABLE but for the activation of access control, and GRANT and
/// REVOKE of privileges on a table. A refusal leaves the same catalogue and touches nothing. The only error is that memory ran out, and
/// then nothing is left of the statement.
pub fn change(
    alloc: Global,
    catalog: &Catalog,
    tables: &Snap,
    said: &Said,
    stmt: &Stmt,
) -> Result<Changed, NoMemory>
    requires kind { is_change_of_tables stmt.now ≡ true }
    requires sound { IsSound stored_rules (bare catalog.now) }
    ensures { IfOk result (LeavesOf catalog.now (rows_only tables.now) said.now.user stmt.now) }
{
    match stmt {
        Stmt::Change(change) => {
            let attempted = attempted(alloc, catalog, tables, &said.user, change);
            settled(alloc, catalog, attempted)
        }
        _ => unreachable!(),
    }
}

fn attempted(
    alloc: Global,
    catalog: &Catalog,
    tables: &Snap,
    user: &Name,
    change: &Change,
) -> Result<Changed, Stop>
    requires kind { is_of_tables change.now ≡ true }
    requires one_each { HasOneOfEachName (bare catalog.now) }
    ensures { Makes catalog.now (rows_only tables.now) (attempt stored_rules (bare catalog.now) (rows_only tables.now) user.now change.now) result }
{
    match change {
        Change::CreateTable(name, elements, policy) => {
            create_table(alloc, catalog, user, name, elements.as_slice(), policy)
        }
        Change::DropTable(name) => drop_table(alloc, catalog, user, name),
        Change::AddColumn(name, column, ty) => {
            add_column(alloc, catalog, tables, user, name, column, *ty)
        }
        Change::AddPolicy(name, policy) => add_policy(alloc, catalog, user, name, policy),
        Change::SecureColumn(name, column, label) => {
            secure_column(alloc, catalog, user, name, column, label)
        }
        Change::UnsecureColumn(name, column) => unsecure_column(alloc, catalog, user, name, column),
        Change::GrantPrivileges(privileges, table, to) => {
            grant_privileges(alloc, catalog, user, privileges.as_slice(), table, to)
        }
        Change::RevokePrivileges(privileges, table, from) => {
            revoke_privileges(alloc, catalog, user, privileges.as_slice(), table, from)
        }
        _ => unreachable!(),
    }
}
