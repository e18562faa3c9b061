// Why a reader stops: no statement goes on so, a bracket too many, or out of memory.
ghost use Rattle.std.specs.Prelude.{◌≡◌};
ghost use Rattle.lb_readt.specs.declared.fault.Fault.TheVariants.{Memory};

use lb_tok::Token;
use std::alloc::{AllocError, AllocFailed};

/// Why reading stops, with the tokens that are left there.
#[derive(Clone, Copy)]
pub enum Fault<'a> {
    /// Out of memory.
    Memory,
    /// No statement goes on with the first of these tokens; none is left where the tokens end too early.
    Bad(&'a [Token]),
    /// The first of these tokens opens one bracket too many.
    Deep(&'a [Token]),
}

/// What was read and the tokens that are left.
pub type Read<'a, T> = Result<(T, &'a [Token]), Fault<'a>>;

impl<'a> From<AllocError> for Fault<'a> {
    ghost from_gives = { λ _ e. e ≡ Memory };

    fn from(_: AllocError) -> Self {
        Fault::Memory
    }
}

impl<'a, T: Drop> From<AllocFailed<T>> for Fault<'a> {
    ghost from_gives = { λ _ e. e ≡ Memory };

    fn from(_: AllocFailed<T>) -> Self {
        Fault::Memory
    }
}
