ghost use Rattle.std.specs.Prelude.{◌≡◌, ◌≤◌, IfErr, IfOk, OnOk};
ghost use Rattle.pw_input_output.specs.Inputs.{GivesUp, IsInput};

use crate::status::Status;
use pw_base::bytes::Bytes;
use pw_base::read_all::{ReadFault, read_all};
use pw_base::source::Source;
use std::alloc::Global;

/// Reads the input of a call: all bytes that the source had left, at most 16,777,216 of them, or None exactly
/// where it had more (docs/reference/DECK.md).
///
/// An Err is the status of a call that has no text: `ReadFault` only where the source failed, or `Memory`.
pub fn read_input<S: Source>(alloc: Global, source: &mut S) -> Result<Option<Bytes>, Status>
    ensures ok { IfOk result (λ input. IsInput (S.left source.old) input) }
    ensures err { IfErr result (λ status. GivesUp status (S.faults source.old) (S.faults source.new)) }
    ensures kept { OnOk result (S.faults source.new ≡ S.faults source.old) }
    ensures count { S.faults source.old ≤ S.faults source.new }
{
    match read_all(alloc, source) {
        Ok(bytes) => Ok(Some(bytes)),
        Err(ReadFault::TooLong) => Ok(None),
        Err(ReadFault::Fault) => Err(Status::ReadFault),
        Err(ReadFault::Memory) => Err(Status::Memory),
    }
}
