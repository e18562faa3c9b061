// The calls of a fake, and which of them fail.
ghost use Rattle.std.specs.Prelude.{◌≡◌, ◌≤◌, ◌+◌, ◌-◌, ◌^◌, ◌↔◌, min, IfOk, IsTrue};
ghost use Rattle.std.specs.List.{Contains};

use crate::Failed;
use lb_base::NoMemory;
use std::alloc::Global;

/// How many calls there were, how many of them failed, and which are to fail.
#[derive(Drop)]
pub struct Calls {
    // The numbers of the calls that fail, from 1.
    fails: Vec<u32>,
    made: u64,
    faults: u64,
}

impl Calls {
    /// No call so far. `fails` has the numbers of the calls that fail, from 1.
    pub fn new(alloc: Global, fails: &[u32]) -> Result<Calls, NoMemory>
        ensures fails { IfOk result (λ c. c.fails.items ≡ fails.now) }
        ensures made { IfOk result (λ c. c.made ≡ 0) }
        ensures faults { IfOk result (λ c. c.faults ≡ 0) }
    {
        Ok(Calls {
            fails: Vec::from_slice(alloc, fails)?,
            made: 0,
            faults: 0,
        })
    }

    /// Counts a call, and says whether it is one that fails.
    pub fn next_fails(&mut self) -> bool
        ensures fails { self.new.fails.items ≡ self.old.fails.items }
        ensures made { self.new.made ≡ min (self.old.made + 1) (2 ^ 64 - 1) }
        ensures faults { self.new.faults ≡ self.old.faults }
        ensures answer { IsTrue result ↔ Contains self.old.fails.items self.new.made }
    {
        self.made = self.made.saturating_add(1);
        self.fails.iter().any(|n| u64::from(*n) == self.made)
    }

    /// Counts a fault.
    pub fn fault(&mut self) -> Failed
        ensures fails { self.new.fails.items ≡ self.old.fails.items }
        ensures made { self.new.made ≡ self.old.made }
        ensures faults { self.new.faults ≡ min (self.old.faults + 1) (2 ^ 64 - 1) }
        ensures later { self.old.faults ≤ self.new.faults }
    {
        self.faults = self.faults.saturating_add(1);
        Failed
    }
}
