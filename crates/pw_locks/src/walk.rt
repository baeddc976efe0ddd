ghost use Rattle.std.specs.Prelude.{◌≡◌};
ghost use Rattle.std.specs.Range.Bound.{bound_map};
ghost use Rattle.pw_locks.specs.Chains.{IsMet, IsMetIn};
ghost use Rattle.pw_locks.specs.Reach.{before, is_reached};
ghost use Rattle.pw_locks.specs.Searches.{Searched, is_sought};

use crate::chain::Chain;
use crate::chains::Chains;
use crate::keys::{is_below_end, is_up_to};
use crate::lock::Lock;
use crate::notes::note_all;
use crate::search::Sought;
use crate::span::Span;
use pw_base::bytes::Bytes;
use pw_code::unit::Unit;
use std::collections::BTreeMap;
use std::ops::Bound;

/// The end of the low ends of the spans that may overlap this one.
fn before(span: &Span) -> Bound<&Bytes>
    ensures { bound_map (λ x. x.now) result ≡ before span.now }
{
    match span {
        Span::Point(key) => Bound::Excluded(key),
        Span::After {
            high: Some(high),
            ..
        } => Bound::Excluded(high),
        Span::After { high: None, .. } => Bound::Unbounded,
    }
}

/// Whether a span that ends at `high` may overlap this one.
fn is_reached(span: &Span, high: &Option<Bytes>) -> bool
    ensures { result ≡ is_reached span.now high.now }
{
    match span {
        Span::Point(key) => is_up_to(key, high),
        Span::After { low, .. } => is_below_end(low, high),
    }
}

/// Notes the units of the locks of a chain on spans that overlap the sought one. It goes back from the last span that
/// begins before the end of the sought one, and stops at the first that ends before it, as those before that one do.
fn note_chain(
    chain: &Chain,
    locks: &BTreeMap<u64, Lock>,
    sought: &Sought<'_>,
    known: Option<Unit>,
) -> Option<Unit>
    ensures { Searched (is_sought sought.now) locks.now known result (IsMet sought.now.span.now chain.now.runs) }
{
    let mut found = known;
    let earlier = chain.runs.range((Bound::Unbounded, before(sought.span)));
    for (_, run) in earlier.rev() {
        if !is_reached(sought.span, &run.high) {
            return found;
        }
        found = note_all(locks, sought, found, run.numbers.as_slice());
    }
    found
}

/// Notes the units of the locks on spans that overlap the sought one.
pub fn note_chains(
    chains: &Chains,
    locks: &BTreeMap<u64, Lock>,
    sought: &Sought<'_>,
    known: Option<Unit>,
) -> Option<Unit>
    ensures { Searched (is_sought sought.now) locks.now known result (IsMetIn sought.now.span.now chains.now.all.items) }
{
    let mut found = known;
    for chain in &chains.all {
        found = note_chain(chain, locks, sought, found);
    }
    found
}
