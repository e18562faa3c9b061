//! Engines, which make plans of statements and run them.
ghost use Rattle.std.specs.Prelude.{◌≡◌, false, IfOk, IsTrue};
ghost use Rattle.lb_base.specs.Days.{IsDay};
ghost use Rattle.lb_rows.specs.Stamped.{rows_only};
ghost use Rattle.lb_cat.specs.Stamps.{bare};
ghost use Rattle.lb_alter.specs.Naming.{stored_rules};
ghost use Rattle.lb_alter.specs.Sound.{IsSound};
ghost use Rattle.lb_fits.specs.Dated.{CatalogStoresDays, IsDated};
ghost use Rattle.lb_journal.specs.Engine.{Gives, RightFor};
ghost use Rattle.lb_journal.specs.Told.{is_change};

use lb_base::NoMemory;
use lb_cat::{Catalog, Cred, Reply};
use lb_rows::{Snap, TableVersion};
use lb_stmt::Stmt;
use std::alloc::Global;
use std::sync::Arc;

/// What a plan answers. Where the reply tells of a write, to how many rows it may be, the table has its new version; otherwise there is
/// none.
#[derive(Drop)]
pub struct Outcome {
    pub reply: Reply,
    pub table: Option<Arc<TableVersion>>,
}

/// It makes a plan of a query or a write, and runs it. What its plans answer, what it asks of session and tables to run them, and which
/// statements it builds in which catalogues, are known to contracts alone.
pub trait Engine {
    ghost use Rattle.std.specs.Prelude.{ℤ, Bool};
    ghost use Rattle.lb_stmt.specs.declared.write.Stmt.{Stmt as AnyStmt};
    ghost use Rattle.lb_rows.specs.Tables.{Tables};
    ghost use Rattle.lb_cat.specs.declared.cred.Cred.{Cred as AnyCred};
    ghost use Rattle.lb_cat.specs.Catalog.{Cat};
    ghost use Rattle.lb_answer.specs.Answer.{Answered};

    type Plan: Send + Sync + Drop;

    /// What a plan answers to a session, over tables, on a day.
    ghost means: { Self.Plan → AnyCred → Tables → ℤ → Answered };

    /// What the engine asks of session and tables to run a plan.
    ghost takes: { Self.Plan → AnyCred → Tables → Type 0 };

    /// The engine makes a plan of the statement in the catalogue. This goes when the engine makes one of every query and write.
    ghost builds: { Cat → AnyStmt → Bool };

    /// Whether the engine makes a plan of the query or the write in the catalogue. It takes no memory.
    fn is_built(catalog: &Catalog, stmt: &Stmt) -> bool
        ensures { result ≡ builds (bare catalog.now) stmt.now };

    /// The plan of a query or a write in a sound catalogue, right for it there. A statement that is refused whatever the session has a
    /// plan too. The DATE literals of the statement and of what the catalogue stores are days of the calendar, as those of every text that
    /// is read are. NoMemory where memory is refused.
    fn compile(alloc: Global, catalog: &Catalog, stmt: &Stmt) -> Result<Self::Plan, NoMemory>
        requires sound { IsSound stored_rules (bare catalog.now) }
        requires stored { CatalogStoresDays (bare catalog.now) }
        requires days { IsDated stmt.now }
        requires kind { is_change stmt.now ≡ false }
        requires built { IsTrue (builds (bare catalog.now) stmt.now) }
        ensures right { IfOk result (λ p. RightFor means takes p (bare catalog.now) stmt.now) };

    /// What a plan answers to a session over the tables, on a day in days since 1970-01-01, from -719162 to 2932896.
    /// NoMemory where memory is refused.
    fn run(
        alloc: Global,
        plan: &Self::Plan,
        cred: &Cred,
        tables: &Snap,
        day: i32,
    ) -> Result<Outcome, NoMemory>
        requires taken { takes plan.now cred.now (rows_only tables.now) }
        requires day { IsDay day }
        ensures answer { IfOk result (λ o. Gives o (means plan.now cred.now (rows_only tables.now) day)) };
}
