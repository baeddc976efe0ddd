ghost use Rattle.std.specs.Prelude.{◌≡◌, ◌≤◌};
ghost use Rattle.pw_base.specs.Limits.{longest_input};
ghost use Rattle.pw_base.specs.Reading.{ReadsAll, CountsReadAll, StopsOnce};

use crate::bytes::Bytes;
use crate::memory::Memory;
use crate::source::{Got, Source};
use std::alloc::Global;
use thiserror::Error;

/// The longest input, in bytes.
pub const MAX_INPUT: usize = 16_777_216;

/// The longest input is as long as the table of limits says.
pub fn input_limit()
    ensures { MAX_INPUT ≡ longest_input }
{}

/// How many bytes are asked of a source at once.
const PIECE: usize = 4_096;

/// Why a source was not read to its end.
#[derive(Clone, Copy, Debug, PartialEq, Eq, Drop, Error)]
pub enum ReadFault {
    #[error("the source failed")]
    Fault,
    #[error("the input is longer than {MAX_INPUT} bytes")]
    TooLong,
    #[error("out of memory")]
    Memory,
}

impl From<Memory> for ReadFault {
    ghost use Rattle.pw_base.specs.declared.read_all.ReadFault.TheVariants.{Memory as OutOfMemory};

    ghost from_gives = { λ _ fault. fault ≡ OutOfMemory };

    fn from(_memory: Memory) -> ReadFault {
        ReadFault::Memory
    }
}

/// Reads a source to its end. An Ok has all bytes that were left.
///
/// `Fault` comes only where the source failed, `TooLong` exactly where more than `MAX_INPUT` bytes
/// came before the end. It does not read again behind the end or behind a failure.
pub fn read_all<S: Source>(alloc: Global, source: &mut S) -> Result<Bytes, ReadFault>
    ensures reads { ReadsAll result (S.left source.old) (S.left source.new) }
    ensures count { S.faults source.old ≤ S.faults source.new }
    ensures cause { CountsReadAll result (S.faults source.old) (S.faults source.new) }
    ensures once { StopsOnce S.step result source.old source.new }
{
    let mut bytes = Bytes::new(alloc);
    let mut piece = [0; PIECE];
    while bytes.len() <= MAX_INPUT {
        match source.read(&mut piece) {
            Got::Got(count) => bytes.extend(&piece[..count])?,
            Got::End => return Ok(bytes),
            Got::Failed => return Err(ReadFault::Fault),
        }
    }
    Err(ReadFault::TooLong)
}
