ghost use Rattle.std.specs.Prelude.{◌≡◌};

use pw_base::memory::Memory;
use pw_volume::fault::DiskFailed;
use std::alloc::{AllocError, AllocFailed};
use thiserror::Error;

/// Why a trail was not opened.
#[derive(Clone, Copy, Debug, PartialEq, Eq, Drop, Error)]
pub enum OpenFault {
    /// The disk failed.
    #[error("the disk failed")]
    Failed,
    /// The place of the gate of the first record outside the format, or the length where the zero byte is missing.
    #[error("the trail is damaged at {at}")]
    Damaged { at: u64 },
    /// Memory ran out.
    #[error("out of memory")]
    Memory,
}

impl From<DiskFailed> for OpenFault {
    ghost use Rattle.pw_trail.specs.declared.fault.OpenFault.TheVariants.{Failed};

    ghost from_gives = { λ _ fault. fault ≡ Failed };

    fn from(_failed: DiskFailed) -> OpenFault {
        OpenFault::Failed
    }
}

impl From<Memory> for OpenFault {
    ghost use Rattle.pw_trail.specs.declared.fault.OpenFault.TheVariants.{Memory as OutOfMemory};

    ghost from_gives = { λ _ fault. fault ≡ OutOfMemory };

    fn from(_memory: Memory) -> OpenFault {
        OpenFault::Memory
    }
}

impl From<AllocError> for OpenFault {
    ghost use Rattle.pw_trail.specs.declared.fault.OpenFault.TheVariants.{Memory as OutOfMemory};

    ghost from_gives = { λ _ fault. fault ≡ OutOfMemory };

    fn from(_error: AllocError) -> OpenFault {
        OpenFault::Memory
    }
}

impl<T: Drop> From<AllocFailed<T>> for OpenFault {
    ghost use Rattle.pw_trail.specs.declared.fault.OpenFault.TheVariants.{Memory as OutOfMemory};

    ghost from_gives = { λ _ fault. fault ≡ OutOfMemory };

    fn from(_error: AllocFailed<T>) -> OpenFault {
        OpenFault::Memory
    }
}
