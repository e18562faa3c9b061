// What a query or a write is answered over what stands.
ghost use Rattle.std.specs.Prelude.{◌≡◌, false, IfOk, IsTrue, List};
ghost use Rattle.lb_base.specs.Days.{IsDay};
ghost use Rattle.lb_tok.specs.Spelled.{IsSpoken};
ghost use Rattle.lb_cat.specs.Credentials.{cred};
ghost use Rattle.lb_cat.specs.Stamps.{bare};
ghost use Rattle.lb_cat.specs.declared.entry.Entry.{Entry as AnyEntry};
ghost use Rattle.lb_rows.specs.Stamped.{rows_only};
ghost use Rattle.lb_journal.specs.Engine.{Gives};
ghost use Rattle.lb_journal.specs.Rules.{answered_to};
ghost use Rattle.lb_journal.specs.Told.{is_change};
ghost use Rattle.lb_book.specs.Stands.{IsReplayed};

use lb_base::{Name, Names, NoMemory};
use lb_cat::Catalog;
use lb_cred::credentials;
use lb_journal::{Engine, Outcome};
use lb_rows::Snap;
use lb_stmt::Stmt;
use std::alloc::Global;

/// Over what: the catalogue and the rows that a journal leaves.
#[derive(Clone, Copy)]
pub struct Over<'a> {
    pub catalog: &'a Catalog,
    pub tables: &'a Snap,
}

/// For whom: the user, the groups of the session, and the day, in days since 1970-01-01, from -719162 to 2932896.
#[derive(Clone, Copy)]
pub struct Asking<'a> {
    pub user: &'a Name,
    pub groups: &'a Names,
    pub day: i32,
}

/// What a query or a write that some text spells is answered, over what a well-made journal leaves, with the new rows of its table where it
/// leaves some. The engine makes a plan of it and runs it. NoMemory where memory is refused.
pub fn outcome<E: Engine>(
    alloc: Global,
    over: Over<'_>,
    asking: Asking<'_>,
    stmt: &Stmt,
) -> Result<Outcome, NoMemory>
    requires replayed { (J : List AnyEntry) × IsReplayed J over.catalog.now over.tables.now }
    requires day { IsDay asking.day }
    requires spoken { IsSpoken stmt.now }
    requires kind { is_change stmt.now ≡ false }
    requires built { IsTrue (E.builds (bare over.catalog.now) stmt.now) }
    ensures { IfOk result (λ o. Gives o (answered_to (bare over.entry.catalog.now) (cred (bare over.entry.catalog.now) asking.entry.user.now asking.entry.groups.now) (rows_only over.entry.tables.now) asking.entry.day stmt.now)) }
{
    lb_standing::replays_are_standing();
    lb_spoken::spoken_statements_have_days();
    lb_journal::right_plans_last::<E>();
    let plan = E::compile(alloc, over.catalog, stmt)?;
    let cred = credentials(alloc, over.catalog, asking.user, asking.groups)?;
    E::run(alloc, &plan, &cred, over.tables, asking.day)
}
