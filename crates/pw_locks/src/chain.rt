ghost use Rattle.pw_locks.specs.Runs.{IsRising};

use crate::index::drop_number;
use crate::keys::{copy_end, ends_by, is_same_end};
use crate::run::SpanLocks;
use pw_base::bytes::Bytes;
use pw_base::memory::Memory;
use std::alloc::Global;
use std::collections::BTreeMap;
use std::ops::Bound;

/// The locks on spans of a file, by the low ends of these. Of two spans the one that begins later does not end earlier.
#[derive(Debug, Drop)]
pub struct Chain {
    pub runs: BTreeMap<Bytes, SpanLocks>,
    ghost rising: { IsRising runs },
}

impl Chain {
    ghost use Rattle.std.specs.Prelude.{◌≡◌, ◌≢◌, ℕ, List, Option, true, [], OnOk};
    ghost use Rattle.pw_locks.specs.Runs.{FitsAmongSpans, EndsLast, EndsFirst, is_in_runs};

    /// No locks. It takes no memory.
    pub fn new(alloc: Global) -> Chain
        ensures { result.runs.entries ≡ [] }
    {
        Chain {
            runs: BTreeMap::new(alloc),
        }
    }

    /// Whether there are no locks.
    pub fn is_empty(&self) -> bool
        ensures { result ≡ true → self.now.runs.entries ≡ [] }
    {
        self.runs.is_empty()
    }

    /// Whether no span that begins before `low` ends after `high`.
    fn ends_last(&self, low: &Bytes, high: &Option<Bytes>) -> bool
        ensures { result ≡ true → EndsLast self.now.runs low.now high.now }
    {
        let mut earlier = self.runs.range((Bound::Unbounded, Bound::Excluded(low)));
        match earlier.next_back() {
            Some((_, run)) => ends_by(&run.high, high),
            None => true,
        }
    }

    /// Whether no span that begins after `low` ends before `high`.
    fn ends_first(&self, low: &Bytes, high: &Option<Bytes>) -> bool
        ensures { result ≡ true → EndsFirst self.now.runs low.now high.now }
    {
        let mut later = self.runs.range((Bound::Excluded(low), Bound::Unbounded));
        match later.next() {
            Some((_, run)) => ends_by(high, &run.high),
            None => true,
        }
    }

    /// Whether locks on a span may be put into the chain.
    pub fn fits(&self, low: &Bytes, high: &Option<Bytes>) -> bool
        ensures { result ≡ true → FitsAmongSpans self.now.runs low.now high.now }
    {
        match self.runs.get(low) {
            Some(run) => is_same_end(&run.high, high),
            None => self.ends_last(low, high) && self.ends_first(low, high),
        }
    }

    /// Puts the number of a lock on a span that fits. What was there stays, also after an `Err`.
    pub fn put(
        &mut self,
        alloc: Global,
        low: &Bytes,
        high: &Option<Bytes>,
        number: u64,
    ) -> Result<(), Memory>
        requires { FitsAmongSpans self.old.runs low.now high.now }
        ensures ok { OnOk result (is_in_runs self.new.runs low.now high.now number ≡ true) }
        ensures stays { (l : List ℕ) (h : Option (List ℕ)) (n : ℕ) → is_in_runs self.old.runs l h n ≡ true
            → is_in_runs self.new.runs l h n ≡ true }
    {
        if let Some(run) = self.runs.get_mut(low) {
            run.numbers.push(number)?;
            return Ok(());
        }
        let mut numbers = Vec::new(alloc);
        numbers.push(number)?;
        let run = SpanLocks {
            high: copy_end(alloc, high)?,
            numbers,
        };
        self.runs.insert(low.copy(alloc)?, run)?;
        Ok(())
    }

    /// Whether the number of a lock stands at this low end. Numbers rise in a run, as those of locks do.
    pub fn has(&self, low: &Bytes, number: u64) -> bool {
        match self.runs.get(low) {
            Some(run) => run.numbers.binary_search(&number).is_ok(),
            None => false,
        }
    }

    /// Takes the number of a lock from a low end. All other numbers stay. It takes no memory.
    pub fn take_out(&mut self, low: &Bytes, number: u64)
        ensures { (l : List ℕ) (h : Option (List ℕ)) (n : ℕ) → n ≢ number → is_in_runs self.old.runs l h n ≡ true
            → is_in_runs self.new.runs l h n ≡ true }
    {
        let Some(run) = self.runs.get_mut(low) else {
            return;
        };
        drop_number(&mut run.numbers, number);
        if run.numbers.is_empty() {
            self.runs.remove(low);
        }
    }
}
