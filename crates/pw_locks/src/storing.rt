ghost use Rattle.std.specs.Prelude.{◌≡◌, ◌<◌, ◌++◌, ◌∷◌, [], All, IfOk, OnErr, OnOk};
ghost use Rattle.std.specs.BTreeMap.{keys, values};
ghost use Rattle.pw_locks.specs.Register.{IsRegistered};

use crate::lock::Lock;
use crate::register::LockRegister;
use pw_base::memory::Memory;
use std::alloc::Global;
use std::collections::BTreeMap;

/// The number for a lock behind these. An `Err` comes only at the end of the numbers.
pub fn number_after(locks: &BTreeMap<u64, Lock>) -> Result<u64, Memory>
    ensures { IfOk result (λ number. All (λ other. other < number) (keys locks.now)) }
{
    match locks.last_key_value() {
        Some((last, _)) => last.checked_add(1).ok_or(Memory),
        None => Ok(0),
    }
}

/// Puts a lock behind the others, and its number into the register. An `Err` leaves the locks as they were.
pub fn store(
    alloc: Global,
    locks: &mut BTreeMap<u64, Lock>,
    register: &mut LockRegister,
    number: u64,
    lock: Lock,
) -> Result<(), Memory>
    requires registered { IsRegistered locks.old register.old }
    requires last { All (λ other. other < number) (keys locks.old) }
    ensures registered { IsRegistered locks.new register.new }
    ensures ok { OnOk result (values locks.new ≡ values locks.old ++ lock ∷ []) }
    ensures err { OnErr result (values locks.new ≡ values locks.old) }
{
    if let Err(memory) = register.enter(alloc, number, &lock) {
        register.strike(number, &lock);
        return Err(memory);
    }
    match locks.insert(number, lock) {
        Ok(_) => Ok(()),
        Err(refused) => {
            let (number, lock) = refused.value;
            register.strike(number, &lock);
            Err(Memory)
        }
    }
}
