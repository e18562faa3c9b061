// A source in memory, which gives its bytes and fails at the calls that were named, for tests of what reads.
ghost use Rattle.std.specs.Prelude.{◌≡◌, ◌≤◌, ◌+◌, ◌-◌, ◌^◌, ◌↔◌, Some, [], drop, length, min, IfOk, IsErr, take};
ghost use Rattle.std.specs.Io.{ReadsAtMost};
ghost use Rattle.std.specs.Io.KnownBytes.{ReadConsumes};
ghost use Rattle.std.specs.List.{Contains};
ghost use Rattle.lb_wire.specs.Causes.{HasCause};
ghost use Rattle.lb_wire.specs.Memory.{source_fails, source_made, bytes_left};

use super::calls::Calls;
use crate::{Failed, Source};
use lb_base::NoMemory;
use std::alloc::Global;

/// A source in memory. It tells its bytes.
#[derive(Drop)]
pub struct MemSource {
    bytes: Vec<u8>,
    at: usize,
    calls: Calls,
}

impl MemSource {
    /// A source of these bytes. `fails` has the numbers of the calls that fail, from 1.
    pub fn new(alloc: Global, bytes: &[u8], fails: &[u32]) -> Result<MemSource, NoMemory>
        ensures left { IfOk result (λ s. ⟦<MemSource as Source>⟧.left s ≡ Some bytes.now) }
        ensures faults { IfOk result (λ s. ⟦<MemSource as Source>⟧.faults s ≡ 0) }
        ensures fails { IfOk result (λ s. source_fails s ≡ fails.now) }
        ensures made { IfOk result (λ s. source_made s ≡ 0) }
    {
        Ok(MemSource {
            bytes: Vec::from_slice(alloc, bytes)?,
            at: 0,
            calls: Calls::new(alloc, fails)?,
        })
    }
}

impl Source for MemSource {
    ghost left = { λ s. Some (bytes_left s) };

    ghost faults = { λ s. s.calls.faults };

    // A call fails exactly where its number is one of those. Any other call gives as many of the
    // bytes that are left as `buf` takes.
    fn read(&mut self, buf: &mut [u8]) -> Result<usize, Failed>
        ensures bound { ReadsAtMost result buf.new }
        ensures bytes { ReadConsumes (Some (bytes_left self.old))
            (Some (bytes_left self.new)) result buf.new }
        ensures cause { HasCause self.old.calls.faults self.new.calls.faults result }
        ensures fails { source_fails self.new ≡ source_fails self.old }
        ensures made { source_made self.new ≡ min (source_made self.old + 1) (2 ^ 64 - 1) }
        ensures failed { IsErr result ↔ Contains (source_fails self.old) (source_made self.new) }
        ensures count { IfOk result
            (λ n. n ≡ min (length (bytes_left self.old)) (length buf.old)) }
    {
        if self.calls.next_fails() {
            return Err(self.calls.fault());
        }
        let count = copy_from(&self.bytes, self.at, buf);
        self.at += count;
        Ok(count)
    }
}

// Copies as many of the bytes from that place on as `buf` takes, and answers how many.
fn copy_from(bytes: &[u8], at: usize, buf: &mut [u8]) -> usize
    ensures count { result ≡ min (length (drop at bytes.now)) (length buf.old) }
    ensures bytes { take result buf.new ≡ take result (drop at bytes.now) }
{
    if at >= bytes.len() {
        return 0;
    }
    let rest = &bytes[at..];
    let count = rest.len().min(buf.len());
    buf[..count].copy_from_slice(&rest[..count]);
    count
}
