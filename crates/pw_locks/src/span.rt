ghost use Rattle.std.specs.Prelude.{◌≡◌, IfOk};

use crate::keys::{copy_end, is_below, is_below_end, is_up_to, larger};
use pw_base::bytes::Bytes;
use pw_base::memory::Memory;
use std::alloc::Global;

/// What a lock covers of a file: one key, or a run of keys. Keys are compared byte by byte.
#[derive(Debug, Drop)]
pub enum Span {
    /// One key, whether it has a record or not.
    Point(Bytes),
    /// The keys above `low` that are not above `high`, or all keys above `low`.
    After { low: Bytes, high: Option<Bytes> },
}

impl Span {
    ghost use Rattle.pw_locks.specs.Spans.{overlap};

    /// Whether the two overlap.
    pub fn overlaps(&self, other: &Span) -> bool
        ensures { result ≡ overlap self.now other.now }
    {
        match (self, other) {
            (Span::Point(key), Span::Point(other_key)) => key.as_slice() == other_key.as_slice(),
            (Span::Point(key), Span::After { low, high })
            | (Span::After { low, high }, Span::Point(key)) => {
                is_below(low, key) && is_up_to(key, high)
            }
            (
                Span::After { low, high },
                Span::After {
                    low: other_low,
                    high: other_high,
                },
            ) => {
                let low = larger(low, other_low);
                is_below_end(low, high) && is_below_end(low, other_high)
            }
        }
    }

    /// An equal value.
    pub fn copy(&self, alloc: Global) -> Result<Span, Memory>
        ensures { IfOk result (λ span. span ≡ self.now) }
    {
        match self {
            Span::Point(key) => Ok(Span::Point(key.copy(alloc)?)),
            Span::After { low, high } => Ok(Span::After {
                low: low.copy(alloc)?,
                high: copy_end(alloc, high)?,
            }),
        }
    }
}
