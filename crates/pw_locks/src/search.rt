ghost use Rattle.std.specs.Prelude.{◌≡◌};

use crate::lock::{Lock, is_same_unit};
use crate::span::Span;
use pw_code::lock::LockMode;
use pw_code::unit::Unit;

/// Whose locks are sought.
#[derive(Clone, Copy)]
pub enum Holders {
    AllBut(Unit),
    Only(Unit),
}

/// The locks that are sought: those of some units that exclude a lock on `span` of `file` in `mode`.
#[derive(Clone, Copy)]
pub struct Sought<'a> {
    pub holders: Holders,
    pub file: u32,
    pub span: &'a Span,
    pub mode: LockMode,
}

impl Holders {
    ghost use Rattle.pw_locks.specs.Searches.{is_sought_holder};

    /// Whether the unit is one of those whose locks are sought.
    pub fn has(&self, unit: &Unit) -> bool
        ensures { result ≡ is_sought_holder self.now unit.now }
    {
        match self {
            Holders::AllBut(own) => !is_same_unit(own, unit),
            Holders::Only(own) => is_same_unit(unit, own),
        }
    }
}

impl Sought<'_> {
    ghost use Rattle.pw_locks.specs.Searches.{is_sought};

    /// Whether a lock is sought.
    pub fn has(&self, held: &Lock) -> bool
        ensures { result ≡ is_sought self.now held.now }
    {
        self.holders.has(&held.unit) && held.excludes(self.file, self.span, self.mode)
    }
}
