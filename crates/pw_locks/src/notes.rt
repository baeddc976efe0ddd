ghost use Rattle.std.specs.Prelude.{◌≡◌, true};
ghost use Rattle.std.specs.BTreeMap.Range.{IsLeBy, IsLtBy, entries_between};
ghost use Rattle.std.specs.Cmp.Lexicographic.{slice_cmp};
ghost use Rattle.std.specs.Ordering.{nat_cmp};
ghost use Rattle.std.specs.Range.Bound.{bound_map, IsForward};
ghost use Rattle.pw_locks.specs.Indexes.{has, is_filed};
ghost use Rattle.pw_locks.specs.Searches.{Searched, is_sought, numbers_of};

use crate::index::FiledNumbers;
use crate::lock::Lock;
use crate::oldest::noted;
use crate::search::Sought;
use pw_base::bytes::Bytes;
use pw_code::unit::Unit;
use std::collections::BTreeMap;
use std::ops::Bound;

/// Notes the unit of the lock of a number, where there is such a lock and it is sought.
fn note(
    locks: &BTreeMap<u64, Lock>,
    sought: &Sought<'_>,
    known: Option<Unit>,
    number: u64,
) -> Option<Unit>
    ensures { Searched (is_sought sought.now) locks.now known result (λ n. n ≡ number) }
{
    match locks.get(&number) {
        Some(held) => noted(known, sought.has(held), held.unit),
        None => known,
    }
}

/// Notes the units of the locks of these numbers.
pub fn note_all(
    locks: &BTreeMap<u64, Lock>,
    sought: &Sought<'_>,
    known: Option<Unit>,
    numbers: &[u64],
) -> Option<Unit>
    ensures { Searched (is_sought sought.now) locks.now known result (λ n. has numbers.now n ≡ true) }
{
    let mut found = known;
    for number in numbers {
        found = note(locks, sought, found, *number);
    }
    found
}

/// Notes the units of the locks that are filed under a key.
pub fn note_at(
    index: &FiledNumbers<Bytes>,
    key: &Bytes,
    locks: &BTreeMap<u64, Lock>,
    sought: &Sought<'_>,
    known: Option<Unit>,
) -> Option<Unit>
    ensures { Searched (is_sought sought.now) locks.now known result
        (λ n. is_filed (slice_cmp nat_cmp) index.now.numbers key.now n ≡ true) }
{
    match index.numbers.get(key) {
        Some(numbers) => note_all(locks, sought, known, numbers.as_slice()),
        None => known,
    }
}

/// Notes the units of the locks that are filed under keys between two bounds.
pub fn note_between(
    index: &FiledNumbers<Bytes>,
    low: Bound<&Bytes>,
    high: Bound<&Bytes>,
    locks: &BTreeMap<u64, Lock>,
    sought: &Sought<'_>,
    known: Option<Unit>,
) -> Option<Unit>
    requires { IsForward (IsLeBy (slice_cmp nat_cmp)) (IsLtBy (slice_cmp nat_cmp))
        (bound_map (λ x. x.now) low) (bound_map (λ x. x.now) high) }
    ensures { Searched (is_sought sought.now) locks.now known result
        (λ n. has (numbers_of (entries_between (slice_cmp nat_cmp) (bound_map (λ x. x.now) low.entry) (bound_map (λ x. x.now) high.entry)
        index.now.numbers.entries)) n ≡ true) }
{
    let mut found = known;
    for (_, numbers) in index.numbers.range((low, high)) {
        found = note_all(locks, sought, found, numbers.as_slice());
    }
    found
}
