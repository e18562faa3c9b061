// A clock in memory, which gives the day that it was made with, for tests of what asks for days.
ghost use Rattle.std.specs.Prelude.{◌≡◌, ◌-◌, ◌^◌, ◌==◌, ◌∷◌, [], Some, None, replicate, if◌then◌else◌};
ghost use Rattle.lb_base.specs.Days.{IsDay};
ghost use Rattle.lb_wire.specs.Told.{GrewBy};

use crate::Clock;

/// A clock in memory, whose day stays. It tells the days that it has given, and stops telling them at its
/// call 2^64 - 1.
#[derive(Drop)]
pub struct MemClock {
    day: i32,
    calls: u64,
    ghost range: { IsDay day },
}

impl MemClock {
    /// A clock that gives this day, counted from 1970-01-01, and has given none yet.
    pub fn new(day: i32) -> MemClock
        requires { IsDay day }
        ensures given { ⟦<MemClock as Clock>⟧.given result ≡ Some [] }
        ensures day { result.day ≡ day }
    {
        MemClock { day, calls: 0 }
    }
}

impl Clock for MemClock {
    ghost given = { λ c. if c.calls == 2 ^ 64 - 1 then None else Some (replicate c.calls c.day) };

    fn today(&mut self) -> i32
        ensures range { IsDay result }
        ensures days { GrewBy (⟦<MemClock as Clock>⟧.given self.old)
            (⟦<MemClock as Clock>⟧.given self.new) (result ∷ []) }
        ensures answer { result ≡ self.old.day }
        ensures day { self.new.day ≡ self.old.day }
    {
        self.calls = self.calls.saturating_add(1);
        self.day
    }
}
