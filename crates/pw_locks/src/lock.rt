ghost use Rattle.std.specs.Prelude.{◌≡◌};
ghost use Rattle.pw_locks.specs.Conflicts.{is_same_unit, are_both_shared, exclude};

use crate::span::Span;
use pw_code::lock::LockMode;
use pw_code::unit::Unit;

/// A lock that a unit holds.
#[derive(Debug, Drop)]
pub struct Lock {
    pub unit: Unit,
    /// The number of the file, from 0.
    pub file: u32,
    pub span: Span,
    pub mode: LockMode,
}

/// Whether two are one unit: a unit is known by its terminal and its number.
pub fn is_same_unit(unit: &Unit, other: &Unit) -> bool
    ensures { result ≡ is_same_unit unit.now other.now }
{
    unit.terminal == other.terminal && unit.number == other.number
}

/// Whether both are shared.
fn are_both_shared(mode: LockMode, other: LockMode) -> bool
    ensures { result ≡ are_both_shared mode other }
{
    matches!((mode, other), (LockMode::Shared, LockMode::Shared))
}

impl Lock {
    /// Whether this lock and one on `span` of `file` in this mode overlap and are not both shared.
    pub fn excludes(&self, file: u32, span: &Span, mode: LockMode) -> bool
        ensures { result ≡ exclude file span.now mode self.now }
    {
        file == self.file && (span.overlaps(&self.span) && !are_both_shared(mode, self.mode))
    }
}
