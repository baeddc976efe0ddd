ghost use Rattle.std.specs.Prelude.{◌≡◌, ℕ, false, not, filter, Some};
ghost use Rattle.std.specs.BTreeMap.{get, values, IsOrdered};
ghost use Rattle.std.specs.Ordering.{nat_cmp};
ghost use Rattle.pw_locks.specs.Conflicts.{is_same_unit};
ghost use Rattle.pw_locks.specs.Register.{IsEntered, IsRegistered, is_held_by};
ghost use Rattle.pw_locks.specs.declared.lock.Lock.{Lock as SeenLock};

use crate::lock::{Lock, is_same_unit};
use crate::register::LockRegister;
use pw_code::unit::Unit;
use std::collections::BTreeMap;

/// Whether there is a lock of this number, and it is the unit's.
fn is_lock_of(locks: &BTreeMap<u64, Lock>, unit: &Unit, number: u64) -> bool
    ensures { result ≡ is_held_by unit.now (get nat_cmp locks.now number) }
{
    match locks.get(&number) {
        Some(held) => is_same_unit(&held.unit, unit),
        None => false,
    }
}

/// Takes away the lock of a number where it is the unit's, and strikes the number out.
fn take_away(locks: &mut BTreeMap<u64, Lock>, register: &mut LockRegister, unit: &Unit, number: u64)
    requires { IsOrdered nat_cmp locks.old }
    ensures ordered { IsOrdered nat_cmp locks.new }
    ensures gone { (held : SeenLock) → get nat_cmp locks.new number ≡ Some held → is_same_unit held.unit unit.now ≡ false }
    ensures none_new { (n : ℕ) (held : SeenLock) → get nat_cmp locks.new n ≡ Some held → get nat_cmp locks.old n ≡ Some held }
    ensures entered { (n : ℕ) (held : SeenLock) → get nat_cmp locks.new n ≡ Some held → IsEntered register.old n held
        → IsEntered register.new n held }
    ensures others { filter (λ held. not (is_same_unit held.unit unit.now)) (values locks.new)
        ≡ filter (λ held. not (is_same_unit held.unit unit.now)) (values locks.old) }
{
    if is_lock_of(locks, unit, number) {
        if let Some(held) = locks.remove(&number) {
            register.strike(number, &held);
        }
    }
}

/// Takes away all locks of a unit, and no others.
pub fn release(locks: &mut BTreeMap<u64, Lock>, register: &mut LockRegister, unit: &Unit)
    requires { IsRegistered locks.old register.old }
    ensures registered { IsRegistered locks.new register.new }
    ensures others { values locks.new
        ≡ filter (λ held. not (is_same_unit held.unit unit.now)) (values locks.old) }
{
    let Some(numbers) = register.take_unit(unit) else {
        return;
    };
    for number in numbers.iter() {
        take_away(locks, register, unit, *number);
    }
}
