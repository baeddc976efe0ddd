ghost use Rattle.std.specs.Prelude.{◌≡◌, ◌↔◌, ◌++◌, ◌∷◌, [], not, ◌&&◌, ◌-◌, ◌==◌, count_by, filter, length, take, IfOk, IfSome, IsNone, OnOk, OnErr};
ghost use Rattle.std.specs.List.{list_any};
ghost use Rattle.pw_locks.specs.Oldest.{IsOldest};

use crate::lock::Lock;
use crate::reach::oldest;
use crate::register::LockRegister;
use crate::release::release;
use crate::search::{Holders, Sought};
use crate::span::Span;
use crate::storing::{number_after, store};
use pw_base::memory::Memory;
use pw_code::lock::LockMode;
use pw_code::unit::Unit;
use std::alloc::Global;
use std::collections::BTreeMap;
use std::marker::Model;

/// The locks that units hold. Contracts see them in the order in which they were added.
///
/// Each lock has a number that rises with each `add`. The locks are found by their files and keys and by their units, so
/// that no call walks the locks of other files or those on keys far away, and `release` those of other units.
#[derive(Debug, Drop)]
pub struct LockBook {
    alloc: Global,
    locks: BTreeMap<u64, Lock>,
    register: LockRegister,
}

impl Model for LockBook {
    ghost use Rattle.std.specs.Prelude.{List};
    ghost use Rattle.std.specs.BTreeMap.{values};
    ghost use Rattle.pw_locks.specs.Register.{IsRegistered};
    ghost use Rattle.pw_locks.specs.declared.lock.Lock.{Lock as HeldLock};

    ghost Value = { List HeldLock };

    ghost view = { λ book. values book.locks };

    ghost invariant = { λ book. IsRegistered book.locks book.register };
}

impl LockBook {
    ghost use Rattle.pw_locks.specs.Conflicts.{is_same_unit, exclude, lock_of, holders};

    /// A book without locks.
    pub fn new(alloc: Global) -> Result<LockBook, Memory>
        ensures { IfOk result (λ book. book ≡ []) }
    {
        Ok(LockBook {
            alloc,
            locks: BTreeMap::new(alloc),
            register: LockRegister::new(alloc),
        })
    }

    /// The oldest unit other than `unit` that holds a lock which conflicts with one of `unit` on `span` of `file` in
    /// this mode, None exactly where there is no such unit. Of units that are equally old it is one.
    /// It takes no memory.
    pub fn conflict(&self, unit: &Unit, file: u32, span: &Span, mode: LockMode) -> Option<Unit>
        ensures none { IsNone result ↔ (holders (lock_of unit.now file span.now mode) self.now ≡ []) }
        ensures oldest { IfSome result (λ holder.
            IsOldest holder (holders (lock_of unit.now file span.now mode) self.now)) }
    {
        let sought = Sought {
            holders: Holders::AllBut(*unit),
            file,
            span,
            mode,
        };
        oldest(&self.register.places, &self.locks, &sought)
    }

    /// Whether `holder` holds a lock that conflicts with one of any other unit on `span` of `file` in this mode.
    /// It takes no memory.
    pub fn blocks(&self, holder: &Unit, file: u32, span: &Span, mode: LockMode) -> bool
        ensures { result ≡
            list_any (λ held. is_same_unit held.unit holder.now && exclude file span.now mode held) self.now }
    {
        let sought = Sought {
            holders: Holders::Only(*holder),
            file,
            span,
            mode,
        };
        oldest(&self.register.places, &self.locks, &sought).is_some()
    }

    /// Puts a lock of `unit` beside the others. An `Err` leaves the locks as they were.
    pub fn add(&mut self, unit: &Unit, file: u32, span: Span, mode: LockMode) -> Result<(), Memory>
        ensures ok { OnOk result (self.new ≡ self.old ++ lock_of unit.now file span mode ∷ []) }
        ensures err { OnErr result (self.new ≡ self.old) }
    {
        let number = number_after(&self.locks)?;
        let lock = Lock {
            unit: *unit,
            file,
            span,
            mode,
        };
        store(
            self.alloc,
            &mut self.locks,
            &mut self.register,
            number,
            lock,
        )
    }

    /// Takes away the lock that was added last, if there is one. It takes no memory.
    pub fn take_back(&mut self)
        ensures { self.new ≡ take (length self.old - 1) self.old }
    {
        if let Some((number, lock)) = self.locks.pop_last() {
            self.register.strike(number, &lock);
        }
    }

    /// Takes away all locks of `unit`, and no others. It takes no memory.
    pub fn release(&mut self, unit: &Unit)
        ensures { self.new ≡ filter (λ held. not (is_same_unit held.unit unit.now)) self.old }
    {
        release(&mut self.locks, &mut self.register, unit);
    }

    /// How many locks there are on a file. It looks at each lock.
    pub fn count_on(&self, file: u32) -> usize
        ensures { result ≡ count_by (λ held. held.file == file) self.now }
    {
        self.locks.values().filter(|held| held.file == file).count()
    }

    /// An equal value.
    pub fn copy(&self, alloc: Global) -> Result<LockBook, Memory>
        ensures { IfOk result (λ book. book ≡ self.now) }
    {
        let mut book = LockBook::new(alloc)?;
        for held in self.locks.values() {
            book.add(&held.unit, held.file, held.span.copy(alloc)?, held.mode)?;
        }
        Ok(book)
    }
}
