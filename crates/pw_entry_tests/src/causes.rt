//! RESTART and END SUSPENDED: whether a cause holds, and which one does.

ghost use Rattle.std.specs.Prelude.{◌≡◌, ◌&&◌, ◌<◌, ◌==◌, nat_lt, IfOk, Some, length};
ghost use Rattle.pw_world_store.specs.Keeps.{kept_in};
ghost use Rattle.pw_world_state.specs.Asked.{verb_in};
ghost use Rattle.pw_world_state.specs.CauseTests.{kept_cause_holds, may_restart, may_suspend, most_restarts};
ghost use Rattle.pw_world_state.specs.PairTests.{is_alone, is_gone};
ghost use Rattle.pw_world_state.specs.TerminalTests.{can_where, is_paired, seen_pair_of};
ghost use Rattle.pw_laws.specs.legal.Values.{is_server_by, is_takeover_by, some_with};
ghost use Rattle.pw_laws.specs.legal.Verbs.{asks_redo};
ghost use Rattle.pw_entry_tests.specs.Causes.{IsCauseFound, IsOlderCause, IsOneFound, IsUnit, running_told};
ghost use Rattle.pw_entry_tests.specs.Known.{IsKnown};
ghost use Rattle.pw_tmf.specs.Told.{ToldUnit};

use crate::older::{find_older, is_older};
use crate::terminals::{pair_of, stepping};
use crate::verbs::{asks_redo, is_server_by, is_takeover_by};
use pw_base::memory::Memory;
use pw_code::system::System;
use pw_code::unit::Unit;
use pw_event::event::Cause;
use pw_pair::mode::Mode;
use pw_tmf::disc::Disc;
use pw_world_store::keep::Keep;

/// How often a unit of a terminal may restart.
pub fn most_restarts(system: &System, terminal: u32) -> u32
    ensures { result ≡ most_restarts system.now terminal }
{
    match system.terminals.get(terminal as usize) {
        Some(info) => info.max_restarts,
        None => 0,
    }
}

/// The open unit of a terminal, where an attempt of it runs.
pub fn running<D: Disc>(keep: &Keep<D>, terminal: u32) -> Option<Unit>
    requires there { terminal < length keep.now.system.terminals }
    requires known { IsKnown keep.now.system (kept_in D.told keep.now) }
    ensures { result ≡ running_told terminal ((kept_in D.told keep.now).disc.units terminal) }
{
    let seat = keep.seat(terminal);
    if seat.start.is_some() {
        seat.unit
    } else {
        None
    }
}

/// RESTART: an attempt of the unit runs, the cause holds for it, and it may restart once more.
pub fn may_restart<D: Disc>(
    keep: &Keep<D>,
    terminal: u32,
    unit: u32,
    cause: Cause,
) -> Result<bool, Memory>
    requires there { terminal < length keep.now.system.terminals }
    requires known { IsKnown keep.now.system (kept_in D.told keep.now) }
    ensures { IfOk result (λ passes. passes
        ≡ may_restart keep.now.system (kept_in D.told keep.now) terminal unit cause) }
{
    let Some(own) = running(keep, terminal) else {
        return Ok(false);
    };
    if has_restart_left(keep, terminal, &own, unit) {
        holds(keep, &own, cause)
    } else {
        Ok(false)
    }
}

/// END SUSPENDED: an attempt of the terminal's unit runs, the cause holds for it, and it may not
/// restart once more.
pub fn may_suspend<D: Disc>(keep: &Keep<D>, terminal: u32, cause: Cause) -> Result<bool, Memory>
    requires there { terminal < length keep.now.system.terminals }
    requires known { IsKnown keep.now.system (kept_in D.told keep.now) }
    ensures { IfOk result (λ passes. passes
        ≡ may_suspend keep.now.system (kept_in D.told keep.now) terminal cause) }
{
    let Some(own) = running(keep, terminal) else {
        return Ok(false);
    };
    if is_at_most(keep, terminal) {
        holds(keep, &own, cause)
    } else {
        Ok(false)
    }
}

/// Whether the unit of a terminal has this number, and may restart once more.
fn has_restart_left<D: Disc>(keep: &Keep<D>, terminal: u32, own: &Unit, unit: u32) -> bool
    requires there { terminal < length keep.now.system.terminals }
    ensures { result ≡ (own.now.number == unit
        && nat_lt ((kept_in D.told keep.now).terminals terminal).restarts
        (most_restarts keep.now.system terminal)) }
{
    own.number == unit && keep.seat(terminal).restarts < most_restarts(keep.system(), terminal)
}

/// Whether the unit of a terminal has restarted as often as it may.
fn is_at_most<D: Disc>(keep: &Keep<D>, terminal: u32) -> bool
    requires there { terminal < length keep.now.system.terminals }
    ensures { result ≡ (((kept_in D.told keep.now).terminals terminal).restarts
        == most_restarts keep.now.system terminal) }
{
    keep.seat(terminal).restarts == most_restarts(keep.system(), terminal)
}

/// Whether the cause holds for an open unit.
fn holds<D: Disc>(keep: &Keep<D>, own: &Unit, cause: Cause) -> Result<bool, Memory>
    requires open { IsUnit keep.now.system (kept_in D.told keep.now) own.now }
    requires known { IsKnown keep.now.system (kept_in D.told keep.now) }
    ensures { IfOk result (λ passes. (told : ToldUnit)
        → (kept_in D.told keep.now).disc.units own.now.terminal ≡ Some told
        → passes ≡ kept_cause_holds keep.now.system (kept_in D.told keep.now) own.now.terminal told cause) }
{
    match cause {
        Cause::Older { terminal, unit } => is_older(keep, own, terminal, unit),
        Cause::Takeover(tcp) => Ok(is_taken_over(keep, own.terminal, tcp)),
        Cause::Server(line) => Ok(is_server_lost(keep, own.terminal, line)),
        Cause::Redo => Ok(is_redo(keep, own.terminal)),
    }
}

/// Whether a takeover of this pair is pending for a terminal, and its pair works alone.
fn is_taken_over<D: Disc>(keep: &Keep<D>, terminal: u32, tcp: u32) -> bool
    requires there { terminal < length keep.now.system.terminals }
    requires known { IsKnown keep.now.system (kept_in D.told keep.now) }
    ensures { result ≡ (some_with (is_takeover_by tcp) ((kept_in D.told keep.now).terminals terminal).pending
        && is_alone (seen_pair_of keep.now.system (kept_in D.told keep.now) terminal).mode) }
{
    is_takeover_by(keep.seat(terminal).pending, tcp)
        && pair_of(keep, terminal).mode() == Mode::Alone
}

/// Whether the failure of a server by this line is pending for a terminal, and its pair is Paired.
fn is_server_lost<D: Disc>(keep: &Keep<D>, terminal: u32, line: u32) -> bool
    requires there { terminal < length keep.now.system.terminals }
    requires known { IsKnown keep.now.system (kept_in D.told keep.now) }
    ensures { result ≡ (some_with (is_server_by line) ((kept_in D.told keep.now).terminals terminal).pending
        && is_paired (seen_pair_of keep.now.system (kept_in D.told keep.now) terminal).mode) }
{
    is_server_by(keep.seat(terminal).pending, line)
        && pair_of(keep, terminal).mode() == Mode::Paired
}

/// Whether the program of a terminal asks for a restart.
fn is_redo<D: Disc>(keep: &Keep<D>, terminal: u32) -> bool
    requires there { terminal < length keep.now.system.terminals }
    requires known { IsKnown keep.now.system (kept_in D.told keep.now) }
    ensures { result ≡ can_where keep.now.system (kept_in D.told keep.now) terminal
        (λ context. asks_redo (verb_in keep.now.system context)) }
{
    match stepping(keep, terminal) {
        Some(at) => asks_redo(&at.verb),
        None => false,
    }
}

/// A cause that holds for the open unit, where one does.
pub fn find_cause<D: Disc>(keep: &Keep<D>, own: &Unit) -> Result<Option<Cause>, Memory>
    requires open { IsUnit keep.now.system (kept_in D.told keep.now) own.now }
    requires known { IsKnown keep.now.system (kept_in D.told keep.now) }
    ensures { IfOk result (IsCauseFound keep.now.system (kept_in D.told keep.now) own.now) }
{
    if let Some(cause) = pending_cause(keep, own)? {
        return Ok(Some(cause));
    }
    if is_redo(keep, own.terminal) {
        return Ok(Some(Cause::Redo));
    }
    older_cause(keep, own)
}

/// The pending cause of the unit's terminal, where it holds.
fn pending_cause<D: Disc>(keep: &Keep<D>, own: &Unit) -> Result<Option<Cause>, Memory>
    requires open { IsUnit keep.now.system (kept_in D.told keep.now) own.now }
    requires known { IsKnown keep.now.system (kept_in D.told keep.now) }
    ensures { IfOk result (IsOneFound
        (λ cause. ((kept_in D.told keep.now).terminals own.now.terminal).pending ≡ Some cause)
        keep.now.system (kept_in D.told keep.now) own.now) }
{
    let Some(cause) = keep.seat(own.terminal).pending else {
        return Ok(None);
    };
    if holds(keep, own, cause)? {
        Ok(Some(cause))
    } else {
        Ok(None)
    }
}

/// Whether no member of the terminal's pair is left.
fn is_gone<D: Disc>(keep: &Keep<D>, terminal: u32) -> bool
    requires there { terminal < length keep.now.system.terminals }
    requires known { IsKnown keep.now.system (kept_in D.told keep.now) }
    ensures { result ≡ is_gone (seen_pair_of keep.now.system (kept_in D.told keep.now) terminal).mode }
{
    pair_of(keep, terminal).mode() == Mode::Gone
}

/// The cause that names an older unit which the unit meets, where there is one.
fn older_cause<D: Disc>(keep: &Keep<D>, own: &Unit) -> Result<Option<Cause>, Memory>
    requires open { IsUnit keep.now.system (kept_in D.told keep.now) own.now }
    requires known { IsKnown keep.now.system (kept_in D.told keep.now) }
    ensures { IfOk result (IsOneFound IsOlderCause keep.now.system (kept_in D.told keep.now) own.now) }
{
    if is_gone(keep, own.terminal) {
        return Ok(None);
    }
    let Some(older) = find_older(keep, own)? else {
        return Ok(None);
    };
    Ok(Some(Cause::Older {
        terminal: older.terminal,
        unit: older.number,
    }))
}
