// The system's clock as a clock that gives days. It can't fail: where the system's does, it gives the day that it
// gave last.
ghost use Rattle.std.specs.Prelude.{◌≡◌, ◌/◌, ◌∷◌, [], min, pos, MatchResult, None};
ghost use Rattle.std.specs.Duration.{as_nanos};
ghost use Rattle.lb_base.specs.Days.{IsDay};
ghost use Rattle.lb_wire.specs.Told.{GrewBy};

use crate::Clock;
use std::io;
use std::time::Duration;

const SECONDS_OF_A_DAY: u64 = 86_400;

const LAST_DAY: u64 = 2_932_896;

/// The system's day, in UTC. Where the system's clock fails, and std lets one that is set before
/// 1970 fail, it is the day that was given last, at first day 0. A day past 9999-12-31 becomes
/// that day. It tells nothing of the days that it has given.
#[derive(Drop)]
pub struct DayClock<R> {
    rt: R,
    last: i32,
    ghost range: { IsDay last },
}

impl<R> DayClock<R> {
    /// A clock that has given no day yet.
    pub fn new(rt: R) -> Self
        ensures { result.last ≡ pos 0 }
    {
        DayClock { rt, last: 0 }
    }
}

impl<R: std::rt::Clock> Clock for DayClock<R> {
    ghost given = { λ _. None };

    // It keeps what it gives.
    fn today(&mut self) -> i32
        ensures range { IsDay result }
        ensures days { GrewBy None None (result ∷ []) }
        ensures kept { self.new.last ≡ result }
    {
        self.last = day_after(self.rt.since_1970(), self.last);
        self.last
    }
}

// The day of a reading of the system's clock, or the last one where the reading failed.
fn day_after(reading: io::Result<Duration>, last: i32) -> i32
    ensures { MatchResult reading
        (λ since. result ≡ pos (min (as_nanos since / 86_400_000_000_000) 2_932_896))
        (λ _. result ≡ last) }
{
    match reading {
        Ok(since) => (since.as_secs() / SECONDS_OF_A_DAY).min(LAST_DAY) as i32,
        Err(_) => last,
    }
}
