ghost use Rattle.std.specs.Prelude.{◌≡◌};

use pw_base::memory::Memory;
use pw_volume::fault::DiskFailed;
use std::alloc::{AllocError, AllocFailed};
use thiserror::Error;

/// Why a summed disk was not opened.
#[derive(Clone, Copy, Debug, PartialEq, Eq, Drop, Error)]
pub enum SumFault {
    /// The disk below failed.
    #[error("the disk failed")]
    Failed,
    /// The place of the gate of the first extent that is damaged, or the length where the shut gate is missing.
    #[error("the bytes are damaged at {at}")]
    Damaged { at: u64 },
    /// Memory ran out.
    #[error("out of memory")]
    Memory,
}

impl From<DiskFailed> for SumFault {
    ghost use Rattle.pw_summed_disk.specs.declared.fault.SumFault.TheVariants.{Failed};

    ghost from_gives = { λ _ fault. fault ≡ Failed };

    fn from(_failed: DiskFailed) -> SumFault {
        SumFault::Failed
    }
}

impl From<Memory> for SumFault {
    ghost use Rattle.pw_summed_disk.specs.declared.fault.SumFault.TheVariants.{Memory as OutOfMemory};

    ghost from_gives = { λ _ fault. fault ≡ OutOfMemory };

    fn from(_memory: Memory) -> SumFault {
        SumFault::Memory
    }
}

impl From<AllocError> for SumFault {
    ghost use Rattle.pw_summed_disk.specs.declared.fault.SumFault.TheVariants.{Memory as OutOfMemory};

    ghost from_gives = { λ _ fault. fault ≡ OutOfMemory };

    fn from(_error: AllocError) -> SumFault {
        SumFault::Memory
    }
}

impl<T: Drop> From<AllocFailed<T>> for SumFault {
    ghost use Rattle.pw_summed_disk.specs.declared.fault.SumFault.TheVariants.{Memory as OutOfMemory};

    ghost from_gives = { λ _ fault. fault ≡ OutOfMemory };

    fn from(_error: AllocFailed<T>) -> SumFault {
        SumFault::Memory
    }
}
