ghost use Rattle.std.specs.Prelude.{◌≡◌};

use pw_base::memory::Memory;
use thiserror::Error;

/// Why a text gave no picture: it is none, or memory ran out.
#[derive(Clone, Copy, Debug, PartialEq, Eq, Drop, Error)]
pub enum PictureFault {
    #[error("no picture")]
    Bad,
    #[error("out of memory")]
    Memory,
}

impl From<Memory> for PictureFault {
    ghost use Rattle.pw_picture.specs.declared.fault.PictureFault.TheVariants.{Memory as OutOfMemory};

    ghost from_gives = { λ _ fault. fault ≡ OutOfMemory };

    fn from(_memory: Memory) -> PictureFault {
        PictureFault::Memory
    }
}
