ghost use Rattle.std.specs.Prelude.{◌≡◌, ℕ, true, None};
ghost use Rattle.std.specs.Range.Bound.{bound_map};
ghost use Rattle.pw_locks.specs.Places.{IsMetPoint, is_in_file};
ghost use Rattle.pw_locks.specs.Reach.{up_to};
ghost use Rattle.pw_locks.specs.Searches.{Searched, is_sought};
ghost use Rattle.pw_locks.specs.Spans.{overlap};
ghost use Rattle.pw_locks.specs.declared.span.Span.{Span as SeenSpan};

use crate::keys::is_below_end;
use crate::lock::Lock;
use crate::notes::{note_at, note_between};
use crate::places::{FilePlaces, Places};
use crate::search::Sought;
use crate::span::Span;
use crate::walk::note_chains;
use pw_base::bytes::Bytes;
use pw_code::unit::Unit;
use std::collections::BTreeMap;
use std::ops::Bound;

/// The end of the points that a span reaches.
fn up_to(high: &Option<Bytes>) -> Bound<&Bytes>
    ensures { bound_map (λ x. x.now) result ≡ up_to high.now }
{
    match high {
        Some(high) => Bound::Included(high),
        None => Bound::Unbounded,
    }
}

/// The oldest unit that has a sought lock among those on points that the sought span overlaps.
fn oldest_on_points(
    places: &FilePlaces,
    locks: &BTreeMap<u64, Lock>,
    sought: &Sought<'_>,
) -> Option<Unit>
    ensures { Searched (is_sought sought.now) locks.now None result (IsMetPoint sought.now.span.now places.now) }
{
    match sought.span {
        Span::Point(key) => note_at(&places.points, key, locks, sought, None),
        Span::After { low, high } => {
            if !is_below_end(low, high) {
                return None;
            }
            note_between(
                &places.points,
                Bound::Excluded(low),
                up_to(high),
                locks,
                sought,
                None,
            )
        }
    }
}

/// The oldest unit that has a sought lock, looked for in the file of that lock alone.
pub fn oldest(places: &Places, locks: &BTreeMap<u64, Lock>, sought: &Sought<'_>) -> Option<Unit>
    ensures { Searched (is_sought sought.now) locks.now None result (λ n. (s : SeenSpan)
        × (overlap sought.now.span.now s ≡ true) × (is_in_file places.now.files sought.now.file s n ≡ true)) }
{
    let Some(places) = places.files.get(&sought.file) else {
        return None;
    };
    let found = oldest_on_points(places, locks, sought);
    note_chains(&places.spans, locks, sought, found)
}
