ghost use Rattle.std.specs.Prelude.{◌≡◌, ◌<◌, ◌≤◌, length};
ghost use Rattle.pw_base.specs.Outside.{Writes, CountsWrite, faults_after_write};

use crate::sink::{Sink, Took};
use std::io::Write;
use std::marker::Model;

/// A sink over a writer. It counts the errors of the writer, up to `u64::MAX`, and takes no memory.
#[derive(Debug, Drop)]
pub struct WriteSink<O> {
    writer: O,
    faults: u64,
}

impl<O> Model for WriteSink<O> {
    ghost use Rattle.pw_base.specs.WriteSink.{WriterState};

    ghost Value = { WriterState O };

    ghost view = { λ sink. record { writer = sink.writer; faults = sink.faults } };
}

impl<O> WriteSink<O> {
    /// A sink that goes on from what the writer holds, with no faults so far.
    pub fn new(writer: O) -> WriteSink<O>
        ensures { result ≡ record { writer = writer; faults = 0 } }
    {
        WriteSink { writer, faults: 0 }
    }
}

impl<O: Write> Sink for WriteSink<O> {
    ghost written = { λ sink. O.contents sink.writer };

    ghost faults = { λ sink. sink.faults };

    /// Writes once, and does not flush. A write of no bytes is a failure, as any error is.
    fn write(&mut self, piece: &[u8]) -> Took
        requires { 0 < length piece.now }
        ensures writes { Writes result piece.now
            (O.contents self.old.writer) (O.contents self.new.writer) }
        ensures count { self.old.faults ≤ self.new.faults }
        ensures cause { CountsWrite result self.old.faults self.new.faults }
        ensures faults { self.new.faults ≡ faults_after_write result self.old.faults }
    {
        match self.writer.write(piece) {
            Ok(count) if count > 0 => Took::Took(count),
            _ => {
                self.faults = self.faults.saturating_add(1);
                Took::Failed
            }
        }
    }
}
