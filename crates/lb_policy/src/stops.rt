// Refusals that name a text of the statement, and the tests that refuse where a name is taken or used.

ghost use Rattle.std.specs.Option.{option_map};
ghost use Rattle.lb_alter.specs.Refusing as refusing;
ghost use Rattle.lb_cat.specs.declared.refusal.Refusal.TheVariants as refusals;
ghost use Rattle.lb_changed.specs.Given.{Passes, StopsFor};

use lb_base::{Name, Str};
use lb_cat::Refusal;
use lb_changed::{Stop, exists, in_use};
use std::alloc::Global;

/// There is no element of that text.
pub fn unknown_text(alloc: Global, text: &str) -> Stop
    ensures { StopsFor (refusals.Unknown text.now) result }
{
    match Str::of(alloc, text) {
        Ok(text) => Stop::Refused(Refusal::Unknown(text)),
        Err(_) => Stop::NoMemory,
    }
}

/// The element is there already.
pub fn exists_text(alloc: Global, text: &str) -> Stop
    ensures { StopsFor (refusals.Exists text.now) result }
{
    match Str::of(alloc, text) {
        Ok(text) => Stop::Refused(Refusal::Exists(text)),
        Err(_) => Stop::NoMemory,
    }
}

/// Exists where the name is taken.
#[tactic(auto, using(crate::proofs::Tests::refuses))]
pub fn unless_taken(alloc: Global, name: &Name, taken: bool) -> Result<(), Stop>
    ensures { Passes (refusing.when taken (refusals.Exists name.now)) result }
{
    if taken {
        return Err(exists(alloc, name));
    }
    Ok(())
}

/// InUse where something uses what has the name.
#[tactic(auto, using(crate::proofs::Tests::refuses))]
pub fn unless_used(alloc: Global, name: &Name, by: Option<&Name>) -> Result<(), Stop>
    ensures { Passes (refusing.in_use name.now (option_map (λ n. n.now) by.entry)) result }
{
    match by {
        Some(by) => Err(in_use(alloc, name, by)),
        None => Ok(()),
    }
}
