// A sink in memory, which keeps what was written and fails at the calls that were named, for tests of what writes.
ghost use Rattle.std.specs.Prelude.{◌≡◌, ◌<◌, ◌+◌, ◌-◌, ◌^◌, ◌⊎◌, Some, [], length, min, IfOk, OnErr, IsErr, take};
ghost use Rattle.std.specs.Io.{WritesAtMost};
ghost use Rattle.std.specs.Io.KnownBytes.{WriteAppends};
ghost use Rattle.std.specs.List.{Contains};
ghost use Rattle.lb_wire.specs.Causes.{HasCause};
ghost use Rattle.lb_wire.specs.Memory.{sink_fails, sink_made, sink_room, bytes_written};

use super::calls::Calls;
use crate::{Failed, Sink};
use lb_base::NoMemory;
use std::alloc::Global;

/// A sink in memory. It tells its bytes.
#[derive(Drop)]
pub struct MemSink {
    bytes: Vec<u8>,
    calls: Calls,
}

impl MemSink {
    /// A sink with nothing written. `fails` has the numbers of the calls that fail, from 1.
    pub fn new(alloc: Global, fails: &[u32]) -> Result<MemSink, NoMemory>
        ensures written { IfOk result (λ s. ⟦<MemSink as Sink>⟧.written s ≡ Some []) }
        ensures faults { IfOk result (λ s. ⟦<MemSink as Sink>⟧.faults s ≡ 0) }
        ensures fails { IfOk result (λ s. sink_fails s ≡ fails.now) }
        ensures made { IfOk result (λ s. sink_made s ≡ 0) }
    {
        Ok(MemSink {
            bytes: Vec::new(alloc),
            calls: Calls::new(alloc, fails)?,
        })
    }

    /// What was written.
    pub fn bytes(&self) -> &[u8]
        ensures { ⟦<MemSink as Sink>⟧.written self.now ≡ Some result.now }
    {
        self.bytes.as_slice()
    }
}

impl Sink for MemSink {
    ghost written = { λ s. Some (bytes_written s) };

    ghost faults = { λ s. s.calls.faults };

    // A call fails where its number is one of those, and else only where there is no memory for
    // the piece. Any other call takes the whole piece.
    fn put(&mut self, piece: &[u8]) -> Result<usize, Failed>
        ensures bound { WritesAtMost result piece.now }
        ensures some { IfOk result (λ n. 0 < length piece.now → 0 < n) }
        ensures bytes { WriteAppends (Some (bytes_written self.old))
            (Some (bytes_written self.new)) result piece.now }
        ensures cause { HasCause self.old.calls.faults self.new.calls.faults result }
        ensures fails { sink_fails self.new ≡ sink_fails self.old }
        ensures made { sink_made self.new ≡ min (sink_made self.old + 1) (2 ^ 64 - 1) }
        ensures fails_there { Contains (sink_fails self.old) (sink_made self.new) → IsErr result }
        ensures fails_only { OnErr result (Contains (sink_fails self.old) (sink_made self.new)
            ⊎ (sink_room self.old < length (bytes_written self.old) + length piece.now)) }
        ensures count { IfOk result (λ n. n ≡ length piece.now) }
    {
        if self.calls.next_fails() {
            return Err(self.calls.fault());
        }
        match self.bytes.extend_from_slice(piece) {
            Ok(()) => Ok(piece.len()),
            Err(_) => Err(self.calls.fault()),
        }
    }
}
