ghost use Rattle.std.specs.Prelude.{◌≡◌};

use pw_base::bytes::Bytes;
use pw_base::memory::Memory;
use pw_code::unit::Unit;
use thiserror::Error;

/// What a file operation comes to.
#[derive(Debug, Drop)]
pub enum FileAnswer {
    /// It was done, with this file status, and read this record, if any.
    Done { status: u16, content: Option<Bytes> },
    /// Another unit holds a lock that conflicts with the operation's: the oldest such unit.
    Conflict(Unit),
    /// The disc failed.
    Failed,
    /// Memory ran out.
    Memory,
}

/// What a file operation would come to now.
#[derive(Clone, Copy, Debug, PartialEq, Eq, Drop)]
pub enum Foreseen {
    /// It would be done, with this file status.
    Done(u16),
    /// Another unit holds a lock that conflicts with the operation's: the oldest such unit.
    Conflict(Unit),
}

/// Why a call of a disc was refused.
#[derive(Clone, Copy, Debug, PartialEq, Eq, Drop, Error)]
pub enum DiscFault {
    #[error("the disc failed")]
    Failed,
    #[error("out of memory")]
    Memory,
}

impl From<Memory> for DiscFault {
    ghost use Rattle.pw_tmf.specs.declared.answer.DiscFault.TheVariants.{Memory as OutOfMemory};

    ghost from_gives = { λ _ fault. fault ≡ OutOfMemory };

    fn from(_memory: Memory) -> DiscFault {
        DiscFault::Memory
    }
}

/// The last ended unit of a terminal: its number there, and its reply, which is kept exactly for a unit that was one
/// SEND and committed.
#[derive(Debug, Drop)]
pub struct Ended {
    pub number: u32,
    pub reply: Option<Bytes>,
}

/// What an open unit has changed at a key of a file: the record that is there now, if any.
#[derive(Debug, Drop)]
pub struct ChangedKey {
    pub file: u32,
    pub key: Bytes,
    pub content: Option<Bytes>,
}
