ghost use Rattle.std.specs.Prelude.{◌≤◌};
ghost use Rattle.pw_base.specs.Outside.{CountsWriteAll, WritesAll};

use crate::sink::{Sink, Took};

/// Writes all bytes. It takes no memory.
///
/// An `Err` comes only where the sink failed, and has the number of bytes that it took: the first
/// ones, and not all.
pub fn write_all_of<K: Sink>(sink: &mut K, bytes: &[u8]) -> Result<(), usize>
    ensures writes { WritesAll result bytes.now (K.written sink.old) (K.written sink.new) }
    ensures count { K.faults sink.old ≤ K.faults sink.new }
    ensures cause { CountsWriteAll result (K.faults sink.old) (K.faults sink.new) }
{
    let mut taken = 0;
    while taken < bytes.len() {
        match sink.write(&bytes[taken..]) {
            Took::Took(count) => taken += count,
            Took::Failed => return Err(taken),
        }
    }
    Ok(())
}
