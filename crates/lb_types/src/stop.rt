// What ends typing before the end of a text.
ghost use Rattle.std.specs.Prelude.{◌≡◌};
ghost use Rattle.lb_types.specs.declared.stop.Stop.TheVariants.{NoMemory};

use std::alloc::AllocError;

/// What ends typing.
#[derive(Clone, Copy)]
pub enum Stop {
    /// The node with this number breaks a rule.
    Broken(u32),
    NoMemory,
}

impl From<AllocError> for Stop {
    ghost from_gives = { λ _ e. e ≡ NoMemory };

    fn from(_: AllocError) -> Self {
        Stop::NoMemory
    }
}
