ghost use Rattle.std.specs.Prelude.{◌≡◌, ◌<◌, ◌≤◌, length};
ghost use Rattle.pw_base.specs.Outside.{Reads, CountsRead, faults_after_read};

use crate::source::{Got, Source};
use std::io::Read;
use std::marker::Model;

/// A source over a reader. It counts the errors of the reader, up to `u64::MAX`, and it takes no
/// memory.
#[derive(Debug, Drop)]
pub struct ReadSource<I> {
    reader: I,
    faults: u64,
}

impl<I> Model for ReadSource<I> {
    ghost use Rattle.pw_base.specs.ReadSource.{ReaderState};

    ghost Value = { ReaderState I };

    ghost view = { λ source. record { reader = source.reader; faults = source.faults } };
}

impl<I> ReadSource<I> {
    /// A source of what the reader has left, with no faults so far.
    pub fn new(reader: I) -> ReadSource<I>
        ensures { result ≡ record { reader = reader; faults = 0 } }
    {
        ReadSource { reader, faults: 0 }
    }
}

impl<I: Read> Source for ReadSource<I> {
    ghost left = { λ source. I.remaining source.reader };

    ghost faults = { λ source. source.faults };

    ghost step = { λ before got now. now.faults ≡ faults_after_read got before.faults };

    /// Reads once. A read of no bytes is the end, and any error is a failure.
    fn read(&mut self, into: &mut [u8]) -> Got
        requires { 0 < length into.old }
        ensures reads { Reads result into.new
            (I.remaining self.old.reader) (I.remaining self.new.reader) }
        ensures count { self.old.faults ≤ self.new.faults }
        ensures cause { CountsRead result self.old.faults self.new.faults }
        ensures step { self.new.faults ≡ faults_after_read result self.old.faults }
    {
        match self.reader.read(into) {
            Ok(0) => Got::End,
            Ok(count) => Got::Got(count),
            Err(_) => {
                self.faults = self.faults.saturating_add(1);
                Got::Failed
            }
        }
    }
}
