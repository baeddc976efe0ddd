ghost use Rattle.std.specs.Prelude.{◌≡◌};

use pw_base::memory::Memory;
use std::alloc::AllocFailed;
use thiserror::Error;

/// Why bytes gave no value, as a context of an image.
#[derive(Clone, Copy, Debug, PartialEq, Eq, Drop, Error)]
pub enum BytesFault {
    /// They have not the format.
    #[error("bad bytes")]
    Bad,
    /// Memory ran out.
    #[error("out of memory")]
    Memory,
}

impl From<Memory> for BytesFault {
    ghost use Rattle.pw_image.specs.declared.fault.BytesFault.TheVariants.{Memory as OutOfMemory};

    ghost from_gives = { λ _ fault. fault ≡ OutOfMemory };

    fn from(_memory: Memory) -> BytesFault {
        BytesFault::Memory
    }
}

impl<T: Drop> From<AllocFailed<T>> for BytesFault {
    ghost use Rattle.pw_image.specs.declared.fault.BytesFault.TheVariants.{Memory as OutOfMemory};

    ghost from_gives = { λ _ fault. fault ≡ OutOfMemory };

    fn from(_error: AllocFailed<T>) -> BytesFault {
        BytesFault::Memory
    }
}
