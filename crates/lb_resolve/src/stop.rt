// Why a pass over the names of a text stops before its end.
ghost use Rattle.std.specs.Prelude.{◌≡◌, IfOk, Option};
ghost use Rattle.std.specs.Option.{option_map};
ghost use Rattle.lb_alter.specs.Naming.{refusal_for};
ghost use Rattle.lb_names.specs.declared.refused.Refused.{Refused as AnyRefused};
ghost use Rattle.lb_resolve.specs.declared.stop.Stop.TheVariants as stops;
ghost use Rattle.lb_resolve.specs.Passing.{Passes};

use lb_base::NoMemory;
use lb_cat::Refusal;
use lb_names::Refused;
use std::alloc::AllocError;

/// Why a pass stops.
#[derive(Drop)]
pub enum Stop {
    Refused(Refused),
    NoMemory,
}

impl From<AllocError> for Stop {
    ghost from_gives = { λ _ stop. stop ≡ stops.NoMemory };

    fn from(_error: AllocError) -> Stop {
        Stop::NoMemory
    }
}

/// The refusal as a reply tells it.
fn refusal_of(refused: Refused) -> Refusal
    ensures { result ≡ refusal_for refused }
{
    match refused {
        Refused::Unknown(name) => Refusal::Unknown(name),
        Refused::Exists(name) => Refusal::Exists(name),
        Refused::BadLabel(at) => Refusal::BadLabel(at),
        Refused::Types(at) => Refusal::Types(at),
    }
}

/// What a check tells whose passes ended so: the refusal that stopped them, and none where they came to the end.
pub fn told(passed: Result<(), Stop>) -> Result<Option<Refusal>, NoMemory>
    ensures { (first : Option AnyRefused) → Passes passed first → IfOk result (λ r. r ≡ option_map refusal_for first) }
{
    match passed {
        Ok(()) => Ok(None),
        Err(Stop::Refused(refused)) => Ok(Some(refusal_of(refused))),
        Err(Stop::NoMemory) => Err(AllocError),
    }
}
