ghost use Rattle.std.specs.Prelude.{◌≡◌, ◌≢◌, ℕ, ◌<◌, List, Option, true, slice_index_or, vec_len, IfSome, OnOk};
ghost use Rattle.pw_locks.specs.Runs.{FitsAmongSpans};

use crate::chain::Chain;
use pw_base::bytes::Bytes;
use pw_base::memory::Memory;
use std::alloc::Global;

/// The locks on the spans of a file, in as few chains as the order in which they came needs.
#[derive(Debug, Drop)]
pub struct Chains {
    pub all: Vec<Chain>,
}

impl Chains {
    ghost use Rattle.pw_locks.specs.Chains.{is_in_chains};
    ghost use Rattle.pw_locks.specs.declared.chain.Chain.{Chain as SeenChain};

    /// No locks. It takes no memory.
    pub fn new(alloc: Global) -> Chains {
        Chains {
            all: Vec::new(alloc),
        }
    }

    /// The place of the first chain into which locks on a span may be put.
    fn place_for(&self, low: &Bytes, high: &Option<Bytes>) -> Option<usize>
        ensures bound { IfSome result (λ place. place < vec_len self.now.all) }
        ensures fits { IfSome result (λ place. (d : SeenChain)
            → FitsAmongSpans (slice_index_or self.now.all.items place d).runs low.now high.now) }
    {
        self.all.iter().position(|chain| chain.fits(low, high))
    }

    /// The place of the chain that has the number of a lock on a span that begins here.
    fn place_of(&self, low: &Bytes, number: u64) -> Option<usize>
        ensures { IfSome result (λ place. place < vec_len self.now.all) }
    {
        self.all.iter().position(|chain| chain.has(low, number))
    }

    /// Puts the number of a lock on a span. What was there stays, also after an `Err`.
    pub fn put(
        &mut self,
        alloc: Global,
        low: &Bytes,
        high: &Option<Bytes>,
        number: u64,
    ) -> Result<(), Memory>
        ensures ok { OnOk result (is_in_chains self.new.all.items low.now high.now number ≡ true) }
        ensures stays { (l : List ℕ) (h : Option (List ℕ)) (n : ℕ) → is_in_chains self.old.all.items l h n ≡ true
            → is_in_chains self.new.all.items l h n ≡ true }
    {
        if let Some(place) = self.place_for(low, high) {
            return self.all[place].put(alloc, low, high, number);
        }
        let mut chain = Chain::new(alloc);
        chain.put(alloc, low, high, number)?;
        self.all.push(chain)?;
        Ok(())
    }

    /// Takes out the number of a lock on a span that begins here. All other numbers stay. It takes no memory.
    pub fn take_out(&mut self, low: &Bytes, number: u64)
        ensures { (l : List ℕ) (h : Option (List ℕ)) (n : ℕ) → n ≢ number → is_in_chains self.old.all.items l h n ≡ true
            → is_in_chains self.new.all.items l h n ≡ true }
    {
        let Some(place) = self.place_of(low, number) else {
            return;
        };
        self.all[place].take_out(low, number);
        if self.all[place].is_empty() {
            self.all.remove(place);
        }
    }
}
