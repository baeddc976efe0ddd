ghost use Rattle.std.specs.Prelude.{◌≡◌, ◌≢◌, ℕ, true, false, [], OnOk};
ghost use Rattle.std.specs.Ordering.{is_eq};
ghost use Rattle.pw_locks.specs.Indexes.{has, found_has, is_filed};

use pw_base::memory::Memory;
use std::alloc::Global;
use std::collections::BTreeMap;

/// Numbers, each filed under a key, as the places of things in a list.
#[derive(Debug, Drop)]
pub struct FiledNumbers<K: Ord> {
    pub numbers: BTreeMap<K, Vec<u64>>,
}

/// Takes a number from a list in which numbers rise, as those of locks and of places do. All other numbers stay.
pub fn drop_number(numbers: &mut Vec<u64>, number: u64)
    ensures { (n : ℕ) → n ≢ number → has numbers.old.items n ≡ true → has numbers.new.items n ≡ true }
{
    if let Ok(place) = numbers.binary_search(&number) {
        numbers.remove(place);
    }
}

impl<K: Ord + Drop> FiledNumbers<K> {
    /// No numbers. It takes no memory.
    pub fn new(alloc: Global) -> FiledNumbers<K>
        ensures { result.numbers.entries ≡ [] }
    {
        FiledNumbers {
            numbers: BTreeMap::new(alloc),
        }
    }

    /// Files a number under a key. What was filed stays, also after an `Err`.
    pub fn put(&mut self, alloc: Global, key: K, number: u64) -> Result<(), Memory>
        ensures ok { OnOk result (is_filed K.cmp self.new.numbers key number ≡ true) }
        ensures stays { (q : K) (n : ℕ) → is_filed K.cmp self.old.numbers q n ≡ true → is_filed K.cmp self.new.numbers q n ≡ true }
    {
        if let Some(numbers) = self.numbers.get_mut(&key) {
            numbers.push(number)?;
            return Ok(());
        }
        let mut numbers = Vec::new(alloc);
        numbers.push(number)?;
        self.numbers.insert(key, numbers)?;
        Ok(())
    }

    /// Takes a number from under a key. All other numbers stay. It takes no memory.
    pub fn take_out(&mut self, key: &K, number: u64)
        ensures { (q : K) (n : ℕ) → n ≢ number → is_filed K.cmp self.old.numbers q n ≡ true → is_filed K.cmp self.new.numbers q n ≡ true }
    {
        let Some(numbers) = self.numbers.get_mut(key) else {
            return;
        };
        drop_number(numbers, number);
        if numbers.is_empty() {
            self.numbers.remove(key);
        }
    }

    /// Takes all numbers from under a key, where there are any. It takes no memory.
    pub fn take(&mut self, key: &K) -> Option<Vec<u64>>
        ensures taken { (n : ℕ) → found_has result n ≡ is_filed K.cmp self.old.numbers key.now n }
        ensures others { (q : K) (n : ℕ) → is_eq (K.cmp key.now q) ≡ false
            → is_filed K.cmp self.new.numbers q n ≡ is_filed K.cmp self.old.numbers q n }
    {
        self.numbers.remove(key)
    }
}
