// The first refusal for names: tables and correlation names, columns, target columns, policies and labels of calls, label texts.
ghost use Rattle.std.specs.Prelude.{◌≡◌, IfOk, true, false};
ghost use Rattle.std.specs.Option.{option_map};
ghost use Rattle.lb_alter.specs.Naming.{refusal_for, stored_rules};
ghost use Rattle.lb_cat.specs.Stamps.{bare};
ghost use Rattle.lb_names.specs.Passes.{first};
ghost use Rattle.lb_names.specs.StatementMarks as marks;
ghost use Rattle.lb_names.specs.Statements as statements;
ghost use Rattle.lb_scope.specs.Found.{catalogue};
ghost use Rattle.lb_resolve.specs.Passing.{Passes, refusal_in};

use crate::mark::{Pass, Walk};
use crate::stop::{Stop, told};
use crate::target::target_columns;
use lb_base::NoMemory;
use lb_cat::{Catalog, Refusal};
use lb_scope::Sight;
use lb_stmt::Stmt;
use lb_tree::{Cond, Expr, Tab};
use std::alloc::Global;

/// The first refusal for names of a query or a write. First each table of FROM, or target, has to be there, with a correlation name
/// of its own in its query; then each column has to mean something; then the target columns of INSERT and UPDATE; then the policies
/// and labels of calls, as given; then the texts of SECLABEL (identifiers). None for a change of the
/// catalogue, which has its own rules.
pub fn names_refused(
    alloc: Global,
    catalog: &Catalog,
    stmt: &Stmt,
) -> Result<Option<Refusal>, NoMemory>
    ensures { IfOk result (λ r. r ≡ option_map refusal_for (statements.names_refused (catalogue catalog.now) stmt.now)) }
{
    told(statement_passes(alloc, catalog, stmt))
}

#[tactic(auto, using(crate::proofs::Rules::passing))]
fn statement_passes(alloc: Global, catalog: &Catalog, stmt: &Stmt) -> Result<(), Stop>
    ensures { Passes result (statements.names_refused (catalogue catalog.now) stmt.now) }
{
    pass_statement(alloc, catalog, Pass::Tables, stmt)?;
    pass_statement(alloc, catalog, Pass::Columns, stmt)?;
    target_columns(alloc, catalog, stmt)?;
    pass_statement(alloc, catalog, Pass::Calls, stmt)?;
    pass_statement(alloc, catalog, Pass::Texts, stmt)
}

/// The first refusal for names of the condition of a permission on a table: as of a statement, but a correlation name of an
/// enclosing query, or of the table, may not be used once more (CREATE PERMISSION statement).
pub fn permission_names_refused(
    alloc: Global,
    catalog: &Catalog,
    on: &Tab,
    condition: &Cond,
) -> Result<Option<Refusal>, NoMemory>
    ensures { IfOk result (λ r. r ≡ stored_rules.condition_names (bare catalog.now) on.now condition.now) }
{
    told(condition_passes(alloc, catalog, on, condition))
}

#[tactic(auto, using(crate::proofs::Rules::passing))]
fn condition_passes(
    alloc: Global,
    catalog: &Catalog,
    on: &Tab,
    condition: &Cond,
) -> Result<(), Stop>
    ensures { Passes result (statements.permission_names_refused (catalogue catalog.now) on.now condition.now) }
{
    pass_condition(alloc, catalog, Pass::Tables, on, condition)?;
    pass_condition(alloc, catalog, Pass::Columns, on, condition)?;
    pass_condition(alloc, catalog, Pass::Calls, on, condition)?;
    pass_condition(alloc, catalog, Pass::Texts, on, condition)
}

/// The first refusal for names of the CASE of a mask on a table (CREATE MASK statement).
pub fn mask_names_refused(
    alloc: Global,
    catalog: &Catalog,
    on: &Tab,
    value: &Expr,
) -> Result<Option<Refusal>, NoMemory>
    ensures { IfOk result (λ r. r ≡ stored_rules.mask_names (bare catalog.now) on.now value.now) }
{
    told(value_passes(alloc, catalog, on, value))
}

#[tactic(auto, using(crate::proofs::Rules::passing))]
fn value_passes(alloc: Global, catalog: &Catalog, on: &Tab, value: &Expr) -> Result<(), Stop>
    ensures { Passes result (statements.mask_names_refused (catalogue catalog.now) on.now value.now) }
{
    pass_value(alloc, catalog, Pass::Tables, on, value)?;
    pass_value(alloc, catalog, Pass::Columns, on, value)?;
    pass_value(alloc, catalog, Pass::Calls, on, value)?;
    pass_value(alloc, catalog, Pass::Texts, on, value)
}

#[tactic(auto, using(crate::proofs::Whole::statement_is))]
fn pass_statement(alloc: Global, catalog: &Catalog, pass: Pass<'_>, stmt: &Stmt) -> Result<(), Stop>
    ensures { Passes result (first (refusal_in catalog.now false pass.entry) (marks.marks_of stmt.now)) }
{
    let walk = Walk {
        alloc,
        catalog,
        stored: false,
        pass,
    };
    walk.statement(stmt)
}

/// Asks the names of the condition of a permission on a table.
#[tactic(auto, using(crate::proofs::Whole::condition_is))]
pub fn pass_condition(
    alloc: Global,
    catalog: &Catalog,
    pass: Pass<'_>,
    on: &Tab,
    condition: &Cond,
) -> Result<(), Stop>
    ensures { Passes result (first (refusal_in catalog.now true pass.entry) (marks.permission_marks on.now condition.now)) }
{
    let walk = Walk {
        alloc,
        catalog,
        stored: true,
        pass,
    };
    let sight = Sight::over(alloc, on)?;
    walk.cond(condition, &sight)
}

/// Asks the names of the CASE of a mask on a table.
#[tactic(auto, using(crate::proofs::Whole::value_is))]
pub fn pass_value(
    alloc: Global,
    catalog: &Catalog,
    pass: Pass<'_>,
    on: &Tab,
    value: &Expr,
) -> Result<(), Stop>
    ensures { Passes result (first (refusal_in catalog.now true pass.entry) (marks.mask_marks on.now value.now)) }
{
    let walk = Walk {
        alloc,
        catalog,
        stored: true,
        pass,
    };
    let sight = Sight::over(alloc, on)?;
    walk.expr(value, &sight)
}
