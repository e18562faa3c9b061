// Why a change stops before its end, and the refusals that changes share.
ghost use Rattle.std.specs.Prelude.{◌≡◌, IfOk};
ghost use Rattle.lb_cat.specs.declared.refusal.NeededPrivilege.TheVariants as needed;
ghost use Rattle.lb_cat.specs.declared.refusal.Refusal.TheVariants as refusals;
ghost use Rattle.lb_changed.specs.declared.stop.Stop.TheVariants as stops;
ghost use Rattle.lb_changed.specs.Given.{StopsFor};

use lb_base::{Name, NoMemory, Str};
use lb_cat::{Flaw, LimitOf, NeededPrivilege, Refusal};
use std::alloc::{AllocError, Global};

/// Why a change stops.
#[derive(Drop)]
pub enum Stop {
    Refused(Refusal),
    NoMemory,
}

impl From<AllocError> for Stop {
    ghost from_gives = { λ _ stop. stop ≡ stops.NoMemory };

    fn from(_error: AllocError) -> Stop {
        Stop::NoMemory
    }
}

/// The text of a name, in memory of its own.
fn text_of(alloc: Global, name: &Name) -> Result<Str, NoMemory>
    ensures { IfOk result (λ s. s ≡ name.now) }
{
    Str::of(alloc, name.as_str())
}

/// There is nothing of that name.
pub fn unknown(alloc: Global, name: &Name) -> Stop
    ensures { StopsFor (refusals.Unknown name.now) result }
{
    match text_of(alloc, name) {
        Ok(text) => Stop::Refused(Refusal::Unknown(text)),
        Err(_) => Stop::NoMemory,
    }
}

/// The name is taken.
pub fn exists(alloc: Global, name: &Name) -> Stop
    ensures { StopsFor (refusals.Exists name.now) result }
{
    match text_of(alloc, name) {
        Ok(text) => Stop::Refused(Refusal::Exists(text)),
        Err(_) => Stop::NoMemory,
    }
}

/// What is to be dropped is used by what the second name names.
pub fn in_use(alloc: Global, name: &Name, by: &Name) -> Stop
    ensures { StopsFor (refusals.InUse name.now by.now) result }
{
    match (text_of(alloc, name), text_of(alloc, by)) {
        (Ok(name), Ok(by)) => Stop::Refused(Refusal::InUse(name, by)),
        _ => Stop::NoMemory,
    }
}

/// There may be at most so many.
pub fn limit(of: LimitOf, most: u64) -> Stop
    ensures { result ≡ stops.Refused (refusals.Limit of most) }
{
    Stop::Refused(Refusal::Limit(of, most))
}

/// The user isn't the owner of the table.
pub fn needs_control(alloc: Global, table: &Name) -> Stop
    ensures { StopsFor (refusals.Privilege needed.Control table.now) result }
{
    match text_of(alloc, table) {
        Ok(text) => Stop::Refused(Refusal::Privilege(NeededPrivilege::Control, text)),
        Err(_) => Stop::NoMemory,
    }
}

/// What is wrong with the column of a table.
pub fn bad_table(alloc: Global, column: &Name, flaw: Flaw) -> Stop
    ensures { StopsFor (refusals.BadTable column.now flaw) result }
{
    match text_of(alloc, column) {
        Ok(text) => Stop::Refused(Refusal::BadTable(text, flaw)),
        Err(_) => Stop::NoMemory,
    }
}
