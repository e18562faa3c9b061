// The first table that a permission or mask may not read.
ghost use Rattle.std.specs.Prelude.{◌≡◌, ℕ, IfOk, List, Option, find};
ghost use Rattle.std.specs.Option.{option_map};
ghost use Rattle.lb_alter.specs.ChangeControl.{is_bad_source};
ghost use Rattle.lb_cat.specs.Stamps.{bare};
ghost use Rattle.lb_names.specs.Mentions.{in_cond, in_expr, tables_in};
ghost use Rattle.lb_names.specs.declared.refused.Refused.TheVariants as refused;
ghost use Rattle.lb_resolve.specs.Passing.{Passes};

use crate::mark::Pass;
use crate::refused::{pass_condition, pass_value};
use crate::stop::Stop;
use lb_base::{Name, NoMemory, Str};
use lb_cat::Catalog;
use lb_names::Refused;
use lb_tree::{Cond, Expr, Tab};
use std::alloc::{AllocError, Global};

/// The first table, in text order, that the condition of a permission of the protected table reads in a subquery and may not: that table
/// itself, or one with a label column. None exactly where there is none (CREATE PERMISSION statement).
pub fn condition_source(
    alloc: Global,
    catalog: &Catalog,
    protected: &Name,
    on: &Tab,
    condition: &Cond,
) -> Result<Option<Str>, NoMemory>
    ensures { IfOk result (λ r. r ≡ find (is_bad_source (bare catalog.now) protected.now) (tables_in (in_cond condition.now))) }
{
    first_source(pass_condition(alloc, catalog, Pass::Sources(protected), on, condition))
}

/// The same of the CASE of a mask (CREATE MASK statement).
pub fn value_source(
    alloc: Global,
    catalog: &Catalog,
    protected: &Name,
    on: &Tab,
    value: &Expr,
) -> Result<Option<Str>, NoMemory>
    ensures { IfOk result (λ r. r ≡ find (is_bad_source (bare catalog.now) protected.now) (tables_in (in_expr value.now))) }
{
    first_source(pass_value(alloc, catalog, Pass::Sources(protected), on, value))
}

/// The table at which a pass over sources stopped.
fn first_source(passed: Result<(), Stop>) -> Result<Option<Str>, NoMemory>
    ensures { (first : Option (List ℕ)) → Passes passed (option_map refused.Unknown first) → IfOk result (λ r. r ≡ first) }
{
    match passed {
        Ok(()) => Ok(None),
        Err(Stop::Refused(Refused::Unknown(table))) => Ok(Some(table)),
        Err(Stop::Refused(_)) => Ok(None),
        Err(Stop::NoMemory) => Err(AllocError),
    }
}
