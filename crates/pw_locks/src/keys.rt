ghost use Rattle.std.specs.Prelude.{◌≡◌, IfOk};
ghost use Rattle.pw_locks.specs.Keys.{is_below, larger, is_up_to, is_below_end, ends_by, is_same_end};

use pw_base::bytes::Bytes;
use pw_base::memory::Memory;
use std::alloc::Global;

/// Whether a key stands before another.
pub fn is_below(key: &Bytes, other: &Bytes) -> bool
    ensures { result ≡ is_below key.now other.now }
{
    key.as_slice().cmp(other.as_slice()).is_lt()
}

/// The larger of two keys.
pub fn larger<'a>(key: &'a Bytes, other: &'a Bytes) -> &'a Bytes
    ensures { result.now ≡ larger key.now other.now }
{
    if is_below(key, other) { other } else { key }
}

/// Whether a key is not above the high end, where there is one.
pub fn is_up_to(key: &Bytes, high: &Option<Bytes>) -> bool
    ensures { result ≡ is_up_to key.now high.now }
{
    match high {
        Some(high) => !is_below(high, key),
        None => true,
    }
}

/// Whether a key is below the high end, where there is one.
pub fn is_below_end(key: &Bytes, high: &Option<Bytes>) -> bool
    ensures { result ≡ is_below_end key.now high.now }
{
    match high {
        Some(high) => is_below(key, high),
        None => true,
    }
}

/// Whether a high end is not above another.
pub fn ends_by(high: &Option<Bytes>, other: &Option<Bytes>) -> bool
    ensures { result ≡ ends_by high.now other.now }
{
    match (high, other) {
        (_, None) => true,
        (None, Some(_)) => false,
        (Some(high), Some(other)) => !is_below(other, high),
    }
}

/// Whether two high ends are equal.
pub fn is_same_end(high: &Option<Bytes>, other: &Option<Bytes>) -> bool
    ensures { result ≡ is_same_end high.now other.now }
{
    match (high, other) {
        (None, None) => true,
        (Some(high), Some(other)) => high.as_slice() == other.as_slice(),
        _ => false,
    }
}

/// An equal value.
pub fn copy_end(alloc: Global, high: &Option<Bytes>) -> Result<Option<Bytes>, Memory>
    ensures { IfOk result (λ end. end ≡ high.now) }
{
    match high {
        Some(high) => Ok(Some(high.copy(alloc)?)),
        None => Ok(None),
    }
}
