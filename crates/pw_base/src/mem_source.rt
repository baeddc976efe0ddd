ghost use Rattle.std.specs.Prelude.{◌≡◌, ◌<◌, ◌≤◌, IfOk, length};
ghost use Rattle.pw_base.specs.Outside.{Reads, CountsRead};

use crate::memory::Memory;
use crate::source::{Got, Source};
use std::alloc::Global;
use std::marker::Model;

/// A source in memory, which fails at the calls that it is told. Only `new` takes memory.
#[derive(Debug, Drop)]
pub struct MemSource {
    bytes: Vec<u8>,
    taken: usize,
    calls: u64,
    faults: u64,
    fail_at: Vec<u64>,
}

impl Model for MemSource {
    ghost use Rattle.std.specs.Prelude.{◌≤◌, drop, length};
    ghost use Rattle.pw_base.specs.MemSource.{SourceState};

    ghost Value = { SourceState };

    ghost view = { λ source. record {
      left = drop source.taken source.bytes.items;
      calls = source.calls;
      faults = source.faults;
      fail_at = source.fail_at.items;
    } };

    ghost invariant = { λ source. source.taken ≤ length source.bytes.items };
}

impl MemSource {
    /// A source of these bytes, whose reads fail at the numbers listed, counted from 1.
    ///
    /// The counts of the calls and of the faults stand still at `u64::MAX`.
    pub fn new(alloc: Global, bytes: &[u8], fail_at: &[u64]) -> Result<MemSource, Memory>
        ensures { IfOk result (λ source. source ≡ record {
          left = bytes.now;
          calls = 0;
          faults = 0;
          fail_at = fail_at.now;
        }) }
    {
        Ok(MemSource {
            bytes: Vec::from_slice(alloc, bytes)?,
            taken: 0,
            calls: 0,
            faults: 0,
            fail_at: Vec::from_slice(alloc, fail_at)?,
        })
    }
}

impl Source for MemSource {
    ghost use Rattle.std.specs.Prelude.{ℕ, Some};
    ghost use Rattle.pw_base.specs.MemSource.{answer_of_read, buffer_after_read, after_read};

    ghost left = { λ source. Some source.left };

    ghost faults = { λ source. source.faults };

    ghost step = { λ before got now. (room : ℕ) × (got ≡ answer_of_read before room) × (now ≡ after_read before room) };

    /// Gives as many bytes as fit into the buffer, or fails and leaves the bytes as they were.
    fn read(&mut self, into: &mut [u8]) -> Got
        requires { 0 < length into.old }
        ensures reads { Reads result into.new (Some self.old.left) (Some self.new.left) }
        ensures count { self.old.faults ≤ self.new.faults }
        ensures cause { CountsRead result self.old.faults self.new.faults }
        ensures step { (room : ℕ) × (result ≡ answer_of_read self.old room) × (self.new ≡ after_read self.old room) }
        ensures answer { result ≡ answer_of_read self.old (length into.old) }
        ensures buffer { into.new ≡ buffer_after_read self.old into.old }
        ensures source { self.new ≡ after_read self.old (length into.old) }
    {
        self.calls = self.calls.saturating_add(1);
        if self.fail_at.contains(&self.calls) {
            self.faults = self.faults.saturating_add(1);
            return Got::Failed;
        }
        let left = &self.bytes[self.taken..];
        let count = left.len().min(into.len());
        if count == 0 {
            return Got::End;
        }
        into[..count].copy_from_slice(&left[..count]);
        self.taken += count;
        Got::Got(count)
    }
}
