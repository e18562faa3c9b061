// What was found wrong with a condition or a CASE, as what stops the statement.
ghost use Rattle.lb_alter.specs.ChangeControl as control;
ghost use Rattle.lb_cat.specs.declared.refusal.Refusal.TheVariants as refusals;
ghost use Rattle.lb_changed.specs.Given.{Passes, StopsFor};

use lb_base::{Name, Str};
use lb_cat::Refusal;
use lb_changed::Stop;
use std::alloc::Global;

/// What was found of names or types stops the statement.
pub(crate) fn passes(refused: Option<Refusal>) -> Result<(), Stop>
    ensures { Passes refused result }
{
    match refused {
        None => Ok(()),
        Some(refusal) => Err(Stop::Refused(refusal)),
    }
}

/// A table that the permission or mask of that name may not read stops the statement.
pub(crate) fn reads_no(alloc: Global, name: &Name, source: Option<Str>) -> Result<(), Stop>
    ensures { Passes (control.bad_source_of name.now source) result }
{
    match source {
        None => Ok(()),
        Some(table) => Err(bad_source(alloc, name, table)),
    }
}

fn bad_source(alloc: Global, name: &Name, table: Str) -> Stop
    ensures { StopsFor (refusals.BadSource name.now table) result }
{
    match Str::of(alloc, name.as_str()) {
        Ok(name) => Stop::Refused(Refusal::BadSource(name, table)),
        Err(_) => Stop::NoMemory,
    }
}
