// Why a statement has no place, and its answer.
ghost use Rattle.std.specs.Prelude.{◌≡◌, None};
ghost use Rattle.lb_cat.specs.declared.answer.Mark.TheVariants as marks;
ghost use Rattle.lb_front.specs.declared.stop.Stop.TheVariants as stops;
ghost use Rattle.lb_front.specs.Prepared.{stop_of, stop_reply};

use lb_cat::{Answer, Mark, Refusal, Reply};
use lb_readable::ReadFault;
use std::alloc::AllocError;

/// Why a statement has no place.
#[derive(Clone, Copy, Debug, PartialEq, Eq)]
pub enum Stop {
    NoMemory,
    /// The text goes wrong at this byte, counted from 0.
    Syntax(u32),
    NotYet,
    /// The journal has as many entries as it may have.
    JournalFull(u64),
}

impl From<AllocError> for Stop {
    ghost from_gives = { λ _ stop. stop ≡ stops.NoMemory };

    fn from(_error: AllocError) -> Stop {
        Stop::NoMemory
    }
}

impl From<ReadFault> for Stop {
    ghost from_gives = { λ fault stop. stop ≡ stop_of fault };

    fn from(fault: ReadFault) -> Stop {
        match fault {
            ReadFault::Syntax(at) => Stop::Syntax(at),
            ReadFault::NoMemory => Stop::NoMemory,
        }
    }
}

/// The answer to a statement without a place.
pub fn unplaced(stop: Stop) -> Answer
    ensures place { result.place ≡ None }
    ensures mark { result.mark ≡ marks.Dash }
    ensures reply { result.reply ≡ stop_reply stop }
{
    let reply = match stop {
        Stop::NoMemory => Reply::NoMemory,
        Stop::Syntax(at) => Reply::Refused(Refusal::Syntax(at)),
        Stop::NotYet => Reply::Refused(Refusal::NotYet),
        Stop::JournalFull(limit) => Reply::Refused(Refusal::JournalFull(limit)),
    };
    Answer {
        place: None,
        mark: Mark::Dash,
        reply,
    }
}
