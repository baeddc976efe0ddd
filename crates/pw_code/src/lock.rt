ghost use Rattle.std.specs.Prelude.{◌≡◌};
ghost use Rattle.pw_code.specs.Locks.{mode_of};

use crate::file::FileOp;

/// How a unit holds a lock.
#[derive(Clone, Copy, Debug, PartialEq, Eq)]
pub enum LockMode {
    /// Beside other shared locks.
    Shared,
    /// Alone.
    Exclusive,
}

/// Which operations of a system lock how.
#[derive(Clone, Copy, Debug, PartialEq, Eq)]
pub enum LockRule {
    /// Plain reads lock shared, all else exclusively.
    ReadersShare,
    /// All operations lock exclusively.
    AllExclusive,
}

/// How an operation locks.
pub fn mode_of(rule: LockRule, op: &FileOp) -> LockMode
    ensures { result ≡ mode_of rule op.now }
{
    match (rule, *op) {
        (LockRule::ReadersShare, FileOp::Read | FileOp::Next) => LockMode::Shared,
        _ => LockMode::Exclusive,
    }
}
