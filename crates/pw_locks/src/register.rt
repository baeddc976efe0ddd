ghost use Rattle.std.specs.Prelude.{◌≡◌, ◌≢◌, ℕ, true, false, OnOk};

use crate::index::FiledNumbers;
use crate::lock::Lock;
use crate::places::Places;
use pw_base::memory::Memory;
use pw_code::unit::Unit;
use std::alloc::Global;

/// The numbers of locks by what they cover, and by terminal and number of their units.
#[derive(Debug, Drop)]
pub struct LockRegister {
    pub places: Places,
    pub units: FiledNumbers<(u32, u32)>,
}

impl LockRegister {
    ghost use Rattle.pw_locks.specs.Conflicts.{is_same_unit};
    ghost use Rattle.pw_locks.specs.Indexes.{found_has};
    ghost use Rattle.pw_locks.specs.Register.{IsEntered};
    ghost use Rattle.pw_locks.specs.declared.lock.Lock.{Lock as SeenLock};

    /// No numbers. It takes no memory.
    pub fn new(alloc: Global) -> LockRegister {
        LockRegister {
            places: Places::new(alloc),
            units: FiledNumbers::new(alloc),
        }
    }

    /// Enters the number of a lock. What was entered stays, also after an `Err`.
    pub fn enter(&mut self, alloc: Global, number: u64, lock: &Lock) -> Result<(), Memory>
        ensures ok { OnOk result (IsEntered self.new number lock.now) }
        ensures stays { (n : ℕ) (other : SeenLock) → IsEntered self.old n other → IsEntered self.new n other }
    {
        self.places.put(alloc, lock.file, &lock.span, number)?;
        let name = (lock.unit.terminal, lock.unit.number);
        self.units.put(alloc, name, number)
    }

    /// Strikes the number of a lock out. All other numbers stay. It takes no memory.
    pub fn strike(&mut self, number: u64, lock: &Lock)
        ensures { (n : ℕ) (other : SeenLock) → n ≢ number → IsEntered self.old n other → IsEntered self.new n other }
    {
        self.places.take_out(lock.file, &lock.span, number);
        let name = (lock.unit.terminal, lock.unit.number);
        self.units.take_out(&name, number);
    }

    /// Takes out the numbers of all locks of a unit, where it has any. Those of other units stay. It takes no memory.
    pub fn take_unit(&mut self, unit: &Unit) -> Option<Vec<u64>>
        ensures own { (n : ℕ) (lock : SeenLock) → IsEntered self.old n lock → is_same_unit lock.unit unit.now ≡ true
            → found_has result n ≡ true }
        ensures others { (n : ℕ) (lock : SeenLock) → IsEntered self.old n lock → is_same_unit lock.unit unit.now ≡ false
            → IsEntered self.new n lock }
    {
        let name = (unit.terminal, unit.number);
        self.units.take(&name)
    }
}
