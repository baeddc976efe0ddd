ghost use Rattle.std.specs.Prelude.{◌≡◌};
ghost use Rattle.pw_base.specs.First.{is_before, better, fault_noted, least};

use crate::fault_code::FaultCode;
use crate::memory::Memory;
use thiserror::Error;

/// A fault of what is read: its line, counted from 1 over the whole input (0 for the input as a
/// whole), and its code.
#[derive(Clone, Copy, Debug, PartialEq, Eq)]
pub struct Fault {
    pub line: u32,
    pub code: FaultCode,
}

impl Fault {
    /// Whether this fault comes before the other: by line, and on one line by the number of its code.
    pub fn is_before(self, other: Fault) -> bool
        ensures { result ≡ is_before self other }
    {
        self.line < other.line
            || self.line == other.line && self.code.number() < other.code.number()
    }
}

/// The first of a fault and of the one that is known, if any.
pub fn better(known: Option<Fault>, fault: Fault) -> Option<Fault>
    ensures { result ≡ better known fault }
{
    match known {
        Some(best) if !fault.is_before(best) => Some(best),
        _ => Some(fault),
    }
}

/// The one that is known, or where there is a fault the first of the two.
pub fn noted(known: Option<Fault>, is_fault: bool, fault: Fault) -> Option<Fault>
    ensures { result ≡ fault_noted known is_fault fault }
{
    if is_fault {
        better(known, fault)
    } else {
        known
    }
}

/// The answer of a reading call that does not accept its text.
#[derive(Clone, Copy, Debug, PartialEq, Eq, Drop, Error)]
pub enum Refusal {
    #[error("fault {code} on line {line}")]
    At { line: u32, code: FaultCode },
    #[error("out of memory")]
    Memory,
}

impl From<Memory> for Refusal {
    ghost use Rattle.pw_base.specs.declared.fault.Refusal.TheVariants.{Memory as OutOfMemory};

    ghost from_gives = { λ _ refusal. refusal ≡ OutOfMemory };

    fn from(_memory: Memory) -> Refusal {
        Refusal::Memory
    }
}

impl From<Fault> for Refusal {
    ghost use Rattle.pw_base.specs.First.{refusal_of};

    ghost from_gives = { λ fault refusal. refusal ≡ refusal_of fault };

    fn from(fault: Fault) -> Refusal {
        Refusal::At {
            line: fault.line,
            code: fault.code,
        }
    }
}
