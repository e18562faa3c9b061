// How a change ends, whatever statement it was.
ghost use Rattle.std.specs.Prelude.{◌≡◌, ℕ, List, IfOk};
ghost use Rattle.lb_stmt.specs.declared.change.Change.{Change as AnyChange};
ghost use Rattle.lb_cat.specs.Stamps.{bare};
ghost use Rattle.lb_rows.specs.Tables.{Tables};
ghost use Rattle.lb_alter.specs.Change.{attempt};
ghost use Rattle.lb_alter.specs.Naming.{stored_rules};
ghost use Rattle.lb_alter.specs.Sound.{IsSound};
ghost use Rattle.lb_changed.specs.Made.{Makes};
ghost use Rattle.lb_settled.specs.Leaves.{Leaves};
ghost use Rattle.lb_settled.specs.Statements.{is_change_of_tables};

use lb_base::NoMemory;
use lb_cat::Catalog;
use lb_changed::{Changed, Stop};
use lb_stmt::{Change, Stmt};
use std::alloc::Global;

/// What is left by a statement that was made or refused. A refused one leaves all as it was and touches nothing. The only error is that
/// memory ran out, and then nothing is left of the statement.
pub fn settled(
    alloc: Global,
    catalog: &Catalog,
    attempted: Result<Changed, Stop>,
) -> Result<Changed, NoMemory>
    requires { IsSound stored_rules (bare catalog.now) }
    ensures { (T : Tables) (user : List ℕ) (s : AnyChange) → Makes catalog.now T (attempt stored_rules (bare catalog.now) T user s) attempted → IfOk result (Leaves catalog.now T user s) }
{
    lb_alter::changes_stay_sound();
    lb_alter::untouched_stays();
    lb_journal::stored_rules_are_steady();
    lb_changed::settled(alloc, catalog, attempted)
}

/// Whether the statement is a change of tables or of privileges on them.
pub fn changes_tables(stmt: &Stmt) -> bool
    ensures { result ≡ is_change_of_tables stmt.now }
{
    match stmt {
        Stmt::Change(
            Change::CreateTable(..)
            | Change::DropTable(_)
            | Change::AddColumn(..)
            | Change::AddPolicy(..)
            | Change::SecureColumn(..)
            | Change::UnsecureColumn(..)
            | Change::GrantPrivileges(..)
            | Change::RevokePrivileges(..),
        ) => true,
        _ => false,
    }
}
