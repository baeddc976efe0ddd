ghost use Rattle.std.specs.Prelude.{◌≡◌, ◌<◌, ◌≤◌, [], IfOk, length};
ghost use Rattle.pw_base.specs.Outside.{Writes, CountsWrite};

use crate::memory::Memory;
use crate::sink::{Sink, Took};
use std::alloc::Global;
use std::marker::Model;

/// A sink in memory with room for so many bytes, which takes pieces of at most one length and fails
/// at the calls that it is told. Only `new` takes memory.
#[derive(Debug, Drop)]
pub struct MemSink {
    bytes: Vec<u8>,
    room: usize,
    piece: usize,
    calls: u64,
    faults: u64,
    fail_at: Vec<u64>,
}

impl Model for MemSink {
    ghost use Rattle.std.specs.Prelude.{◌≤◌, length, vec_capacity};
    ghost use Rattle.pw_base.specs.MemSink.{SinkState};

    ghost Value = { SinkState };

    ghost view = { λ sink. record {
      written = sink.bytes.items;
      room = sink.room;
      piece = sink.piece;
      calls = sink.calls;
      faults = sink.faults;
      fail_at = sink.fail_at.items;
    } };

    ghost invariant = { λ sink. (1 ≤ sink.piece) × (length sink.bytes.items ≤ sink.room)
        × (sink.room ≤ vec_capacity sink.bytes) };
}

impl MemSink {
    /// A sink with room for `room` bytes, which takes at most `piece` bytes at a call, and whose
    /// writes fail at the numbers listed, counted from 1.
    ///
    /// The counts of the calls and of the faults stand still at `u64::MAX`.
    pub fn new(alloc: Global, room: usize, piece: usize, fail_at: &[u64]) -> Result<MemSink, Memory>
        requires { 1 ≤ piece }
        ensures { IfOk result (λ sink. sink ≡ record {
          written = [];
          room = room;
          piece = piece;
          calls = 0;
          faults = 0;
          fail_at = fail_at.now;
        }) }
    {
        Ok(MemSink {
            bytes: Vec::with_capacity(alloc, room)?,
            room,
            piece,
            calls: 0,
            faults: 0,
            fail_at: Vec::from_slice(alloc, fail_at)?,
        })
    }

    /// The bytes that it holds.
    pub fn written(&self) -> &[u8]
        ensures { result.now ≡ self.now.written }
    {
        self.bytes.as_slice()
    }
}

impl Sink for MemSink {
    ghost use Rattle.std.specs.Prelude.{Some};
    ghost use Rattle.pw_base.specs.MemSink.{answer_of_write, after_write};

    ghost written = { λ sink. Some sink.written };

    ghost faults = { λ sink. sink.faults };

    /// Takes as many bytes as one write may and as there is room for. It fails also where no room
    /// is left, and then holds what it held.
    fn write(&mut self, piece: &[u8]) -> Took
        requires { 0 < length piece.now }
        ensures writes { Writes result piece.now (Some self.old.written) (Some self.new.written) }
        ensures count { self.old.faults ≤ self.new.faults }
        ensures cause { CountsWrite result self.old.faults self.new.faults }
        ensures answer { result ≡ answer_of_write self.old (length piece.now) }
        ensures sink { self.new ≡ after_write self.old piece.now }
    {
        self.calls = self.calls.saturating_add(1);
        let left = self.room - self.bytes.len();
        if self.fail_at.contains(&self.calls) || left == 0 {
            self.faults = self.faults.saturating_add(1);
            return Took::Failed;
        }
        let count = self.piece.min(piece.len()).min(left);
        let Ok(()) = self.bytes.extend_from_slice(&piece[..count]) else {
            unreachable!()
        };
        Took::Took(count)
    }
}
