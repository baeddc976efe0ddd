ghost use Rattle.std.specs.Prelude.{◌≡◌};

use pw_base::memory::Memory;
use thiserror::Error;

/// Why a schedule gives no text.
#[derive(Clone, Copy, Debug, PartialEq, Eq, Error)]
pub enum ScheduleFault {
    /// The first line that is faulty, from 1; 0 for an input over the limit. Where the first line
    /// is missing, it is the number of lines plus 1.
    #[error("SCHEDULE FAULT LINE {line}")]
    At { line: u32 },
    #[error("out of memory")]
    Memory,
}

impl From<Memory> for ScheduleFault {
    ghost use Rattle.pw_expand.specs.declared.fault.ScheduleFault.TheVariants.{Memory as OutOfMemory};

    ghost from_gives = { λ _ fault. fault ≡ OutOfMemory };

    fn from(_memory: Memory) -> ScheduleFault {
        ScheduleFault::Memory
    }
}
