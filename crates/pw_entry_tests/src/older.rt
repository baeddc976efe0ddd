//! Where two open units meet by the next operation of a process, and which older one a unit meets.

ghost use Rattle.std.specs.Prelude.{◌≡◌, ◌≢◌, ◌<◌, ◌≤◌, IfOk, Some, length, slice_get};
ghost use Rattle.pw_code_meaning.specs.OfSystem.{processes_by};
ghost use Rattle.pw_world_store.specs.Keeps.{kept_in};
ghost use Rattle.pw_world_state.specs.CauseTests.{is_older};
ghost use Rattle.pw_entry_tests.specs.Causes.{IsOlderFound, IsUnit, class_meets, comes_before, meets_by, older_holder, process_meets, units_meet};
ghost use Rattle.pw_entry_tests.specs.Known.{IsKnown};
ghost use Rattle.pw_tmf.specs.Leaving.{unit_told};
ghost use Rattle.pw_tmf.specs.Operation.{IsCall};
ghost use Rattle.pw_tmf.specs.Told.{ToldUnit};

use crate::classes::call_at;
use crate::terminals::pair_of;
use pw_base::memory::Memory;
use pw_class::request::Request;
use pw_code::file::FileCall;
use pw_code::system::System;
use pw_code::unit::Unit;
use pw_pair::mode::Mode;
use pw_tmf::answer::Foreseen;
use pw_tmf::disc::Disc;
use pw_world_store::keep::Keep;

/// The open unit of a terminal, whatever its number.
pub fn open_unit<D: Disc>(keep: &Keep<D>, terminal: u32) -> Option<Unit>
    requires known { IsKnown keep.now.system (kept_in D.told keep.now) }
    ensures { result ≡ unit_told terminal ((kept_in D.told keep.now).disc.units terminal) }
{
    if (terminal as usize) < keep.system().terminals.len() {
        keep.seat(terminal).unit
    } else {
        None
    }
}

/// Whether an older unit of this number is open on the terminal, and it and the open unit meet.
pub fn is_older<D: Disc>(
    keep: &Keep<D>,
    own: &Unit,
    terminal: u32,
    number: u32,
) -> Result<bool, Memory>
    requires open { IsUnit keep.now.system (kept_in D.told keep.now) own.now }
    requires known { IsKnown keep.now.system (kept_in D.told keep.now) }
    ensures { IfOk result (λ passes. (told : ToldUnit)
        → (kept_in D.told keep.now).disc.units own.now.terminal ≡ Some told
        → passes ≡ is_older keep.now.system (kept_in D.told keep.now) own.now.terminal told terminal number) }
{
    let Some(older) = open_unit(keep, terminal) else {
        return Ok(false);
    };
    if comes_before(keep, own, &older, number) {
        meet(keep, own, &older)
    } else {
        Ok(false)
    }
}

/// Whether the other unit has this number and is older, while a member of the unit's pair is left.
fn comes_before<D: Disc>(keep: &Keep<D>, own: &Unit, older: &Unit, number: u32) -> bool
    requires there { own.now.terminal < length keep.now.system.terminals }
    requires known { IsKnown keep.now.system (kept_in D.told keep.now) }
    ensures { result ≡ comes_before keep.now.system (kept_in D.told keep.now) own.now older.now number }
{
    older.number == number
        && older.birth < own.birth
        && pair_of(keep, own.terminal).mode() != Mode::Gone
}

/// Whether two open units meet: the lock of the next operation of a process for one of them
/// conflicts with a lock of the other.
#[tactic(auto, using(crate::proofs::Anywhere::any_more))]
fn meet<D: Disc>(keep: &Keep<D>, one: &Unit, other: &Unit) -> Result<bool, Memory>
    requires one { IsUnit keep.now.system (kept_in D.told keep.now) one.now }
    requires other { IsUnit keep.now.system (kept_in D.told keep.now) other.now }
    requires apart { one.now.terminal ≢ other.now.terminal }
    requires known { IsKnown keep.now.system (kept_in D.told keep.now) }
    ensures { IfOk result (λ found. found
        ≡ units_meet keep.now.system (kept_in D.told keep.now) one.now other.now) }
{
    let mut found = false;
    for class in 0..keep.system().classes.len() as u32 {
        found |= class_meets(keep, one, other, class)?;
    }
    Ok(found)
}

/// How many processes a class has.
fn processes_of(system: &System, class: u32) -> u32
    ensures { result ≡ processes_by (slice_get system.now.classes class) }
{
    match system.classes.get(class as usize) {
        Some(info) => info.processes,
        None => 0,
    }
}

/// Whether two open units meet by the next operation of a process of a class.
#[tactic(auto, using(crate::proofs::Anywhere::any_more))]
fn class_meets<D: Disc>(
    keep: &Keep<D>,
    one: &Unit,
    other: &Unit,
    class: u32,
) -> Result<bool, Memory>
    requires class { class < length keep.now.system.classes }
    requires one { IsUnit keep.now.system (kept_in D.told keep.now) one.now }
    requires other { IsUnit keep.now.system (kept_in D.told keep.now) other.now }
    requires apart { one.now.terminal ≢ other.now.terminal }
    requires known { IsKnown keep.now.system (kept_in D.told keep.now) }
    ensures { IfOk result (λ found. found
        ≡ class_meets keep.now.system (kept_in D.told keep.now) one.now other.now class) }
{
    let mut found = false;
    for place in 0..processes_of(keep.system(), class) {
        found |= process_meets(keep, one, other, class, place + 1)?;
    }
    Ok(found)
}

/// Whether two open units meet by the next operation of one process.
fn process_meets<D: Disc>(
    keep: &Keep<D>,
    one: &Unit,
    other: &Unit,
    class: u32,
    process: u32,
) -> Result<bool, Memory>
    requires class { class < length keep.now.system.classes }
    requires process { 1 ≤ process }
    requires one { IsUnit keep.now.system (kept_in D.told keep.now) one.now }
    requires other { IsUnit keep.now.system (kept_in D.told keep.now) other.now }
    requires apart { one.now.terminal ≢ other.now.terminal }
    requires known { IsKnown keep.now.system (kept_in D.told keep.now) }
    ensures { IfOk result (λ found. found
        ≡ process_meets keep.now.system (kept_in D.told keep.now) one.now other.now class process) }
{
    match call_at(keep, class, process) {
        Some((request, call)) => call_meets(keep, one, other, request, call),
        None => Ok(false),
    }
}

/// Whether the operation, of a request for one of the units, conflicts with a lock of the other.
fn call_meets<D: Disc>(
    keep: &Keep<D>,
    one: &Unit,
    other: &Unit,
    request: &Request,
    call: &FileCall,
) -> Result<bool, Memory>
    requires one { IsUnit keep.now.system (kept_in D.told keep.now) one.now }
    requires other { IsUnit keep.now.system (kept_in D.told keep.now) other.now }
    requires apart { one.now.terminal ≢ other.now.terminal }
    requires call { IsCall (kept_in D.told keep.now).disc call.now }
    requires known { IsKnown keep.now.system (kept_in D.told keep.now) }
    ensures { IfOk result (λ found. found
        ≡ meets_by (kept_in D.told keep.now) one.now other.now request.now call.now) }
{
    if request.terminal == one.terminal {
        return keep.awaits(one, call, other);
    }
    if request.terminal == other.terminal {
        return keep.awaits(other, call, one);
    }
    Ok(false)
}

/// An older open unit that the open unit meets, where there is one.
pub fn find_older<D: Disc>(keep: &Keep<D>, own: &Unit) -> Result<Option<Unit>, Memory>
    requires open { IsUnit keep.now.system (kept_in D.told keep.now) own.now }
    requires known { IsKnown keep.now.system (kept_in D.told keep.now) }
    ensures { IfOk result (IsOlderFound keep.now.system (kept_in D.told keep.now) own.now
        (units_meet keep.now.system (kept_in D.told keep.now) own.now)) }
{
    for class in 0..keep.system().classes.len() as u32 {
        if let Some(older) = older_in_class(keep, own, class)? {
            return Ok(Some(older));
        }
    }
    Ok(None)
}

/// An older open unit that the open unit meets by a process of a class, where there is one.
fn older_in_class<D: Disc>(keep: &Keep<D>, own: &Unit, class: u32) -> Result<Option<Unit>, Memory>
    requires class { class < length keep.now.system.classes }
    requires open { IsUnit keep.now.system (kept_in D.told keep.now) own.now }
    requires known { IsKnown keep.now.system (kept_in D.told keep.now) }
    ensures { IfOk result (IsOlderFound keep.now.system (kept_in D.told keep.now) own.now
        (λ older. class_meets keep.now.system (kept_in D.told keep.now) own.now older class)) }
{
    for place in 0..processes_of(keep.system(), class) {
        if let Some(older) = older_at(keep, own, class, place + 1)? {
            return Ok(Some(older));
        }
    }
    Ok(None)
}

/// An older open unit that the open unit meets by one process, where there is one.
fn older_at<D: Disc>(
    keep: &Keep<D>,
    own: &Unit,
    class: u32,
    process: u32,
) -> Result<Option<Unit>, Memory>
    requires class { class < length keep.now.system.classes }
    requires process { 1 ≤ process }
    requires open { IsUnit keep.now.system (kept_in D.told keep.now) own.now }
    requires known { IsKnown keep.now.system (kept_in D.told keep.now) }
    ensures { IfOk result (IsOlderFound keep.now.system (kept_in D.told keep.now) own.now
        (λ older. process_meets keep.now.system (kept_in D.told keep.now) own.now older class process)) }
{
    let Some((request, call)) = call_at(keep, class, process) else {
        return Ok(None);
    };
    if request.terminal == own.terminal {
        return Ok(older_holder(own, keep.foresee(own, call)?));
    }
    let Some(worker) = open_unit(keep, request.terminal) else {
        return Ok(None);
    };
    if worker.birth >= own.birth {
        return Ok(None);
    }
    if keep.awaits(&worker, call, own)? {
        Ok(Some(worker))
    } else {
        Ok(None)
    }
}

/// The unit that is foreseen to stand in the way, where it is older.
fn older_holder(own: &Unit, foreseen: Foreseen) -> Option<Unit>
    ensures { result ≡ older_holder own.now foreseen }
{
    match foreseen {
        Foreseen::Conflict(holder) if holder.birth < own.birth => Some(holder),
        _ => None,
    }
}
