ghost use Rattle.std.specs.Prelude.{◌≡◌};

use pw_base::memory::Memory;
use std::alloc::AllocError;
use thiserror::Error;

/// Why a line gave no value.
#[derive(Clone, Copy, Debug, PartialEq, Eq, Drop, Error)]
pub enum EventFault {
    /// It is outside the grammar.
    #[error("bad line")]
    Bad,
    /// It is in the grammar, and a name or the number of a process in it is not the system's.
    #[error("unknown object")]
    Unknown,
    /// Memory ran out.
    #[error("out of memory")]
    Memory,
}

impl From<Memory> for EventFault {
    ghost use Rattle.pw_event.specs.declared.fault.EventFault.TheVariants.{Memory as OutOfMemory};

    ghost from_gives = { λ _ fault. fault ≡ OutOfMemory };

    fn from(_memory: Memory) -> EventFault {
        EventFault::Memory
    }
}

impl From<AllocError> for EventFault {
    ghost use Rattle.pw_event.specs.declared.fault.EventFault.TheVariants.{Memory as OutOfMemory};

    ghost from_gives = { λ _ fault. fault ≡ OutOfMemory };

    fn from(_error: AllocError) -> EventFault {
        EventFault::Memory
    }
}
