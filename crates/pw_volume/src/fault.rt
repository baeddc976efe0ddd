ghost use Rattle.std.specs.Prelude.{◌≡◌};

use pw_base::memory::Memory;
use thiserror::Error;

/// The disk has failed.
#[derive(Clone, Copy, Debug, PartialEq, Eq, Drop, Error)]
#[error("the disk failed")]
pub struct DiskFailed;

/// Why a write was not made.
#[derive(Clone, Copy, Debug, PartialEq, Eq, Drop, Error)]
pub enum WriteFault {
    #[error("the disk failed")]
    Failed,
    #[error("out of memory")]
    Memory,
}

impl From<DiskFailed> for WriteFault {
    ghost use Rattle.pw_volume.specs.declared.fault.WriteFault.TheVariants.{Failed};

    ghost from_gives = { λ _ fault. fault ≡ Failed };

    fn from(_failed: DiskFailed) -> WriteFault {
        WriteFault::Failed
    }
}

impl From<Memory> for WriteFault {
    ghost use Rattle.pw_volume.specs.declared.fault.WriteFault.TheVariants.{Memory as OutOfMemory};

    ghost from_gives = { λ _ fault. fault ≡ OutOfMemory };

    fn from(_memory: Memory) -> WriteFault {
        WriteFault::Memory
    }
}
