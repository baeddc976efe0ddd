//! The entries by which a terminal begins and ends units, and the checkpoints before them.

ghost use Rattle.std.specs.Prelude.{◌≡◌, ◌&&◌, ◌<◌, ◌==◌, is_none, is_some, length, not};
ghost use Rattle.pw_image.specs.Image.{image_of};
ghost use Rattle.pw_world_store.specs.Keeps.{kept_in};
ghost use Rattle.pw_world_state.specs.Asked.{unit_in};
ghost use Rattle.pw_world_state.specs.TerminalTests.{begins_unit, closing, flies, may_back, may_begin, may_check_end, may_check_start, may_commit, seat_at, start_held};
ghost use Rattle.pw_laws.specs.legal.Terminals.{is_over};
ghost use Rattle.pw_laws.specs.legal.Verbs.{asks_drop, asks_end};
ghost use Rattle.pw_pair.specs.Pairs.{passes};
ghost use Rattle.pw_pair.specs.Seats.{holds_end};
ghost use Rattle.pw_entry_tests.specs.Images.{behind_end};
ghost use Rattle.pw_entry_tests.specs.Known.{IsFewCounted, IsKnown};

use crate::terminals::{is_end_held, is_over, is_start_held, last_ended, pair_of, stepping};
use crate::verbs::{asks_drop, asks_end, begins_unit, closes};
use pw_tmf::disc::Disc;
use pw_world_store::keep::Keep;
use pw_world_store::seat::Ready;

/// CHECK START: a unit is to begin, and the backup neither holds its start nor is sent anything.
pub fn may_check_start<D: Disc>(keep: &Keep<D>, terminal: u32) -> bool
    requires there { terminal < length keep.now.system.terminals }
    requires known { IsKnown keep.now.system (kept_in D.told keep.now) }
    ensures { result ≡ may_check_start keep.now.system (kept_in D.told keep.now) terminal }
{
    match stepping(keep, terminal) {
        Some(at) => is_start_due(keep, terminal, at),
        None => false,
    }
}

/// Whether no attempt runs, and a unit is to begin whose start is wanted.
fn is_start_due<D: Disc>(keep: &Keep<D>, terminal: u32, at: &Ready) -> bool
    requires there { terminal < length keep.now.system.terminals }
    requires known { IsKnown keep.now.system (kept_in D.told keep.now) }
    requires counts { IsFewCounted at.now.context }
    ensures { result ≡ (is_none ((kept_in D.told keep.now).terminals terminal).start
        && (begins_unit at.now.verb (not at.now.context.in_unit)
        && (not (((kept_in D.told keep.now).disc.ended terminal).number == unit_in at.now.context)
        && (not (start_held keep.now.system (kept_in D.told keep.now) terminal (unit_in at.now.context))
        && not (flies keep.now.system (kept_in D.told keep.now) terminal))))) }
{
    keep.seat(terminal).start.is_none() && is_start_wanted(keep, terminal, at)
}

/// Whether a unit is to begin whose start the backup neither holds nor is sent.
fn is_start_wanted<D: Disc>(keep: &Keep<D>, terminal: u32, at: &Ready) -> bool
    requires there { terminal < length keep.now.system.terminals }
    requires known { IsKnown keep.now.system (kept_in D.told keep.now) }
    requires counts { IsFewCounted at.now.context }
    ensures { result ≡ (begins_unit at.now.verb (not at.now.context.in_unit)
        && (not (((kept_in D.told keep.now).disc.ended terminal).number == unit_in at.now.context)
        && (not (start_held keep.now.system (kept_in D.told keep.now) terminal (unit_in at.now.context))
        && not (flies keep.now.system (kept_in D.told keep.now) terminal)))) }
{
    begins_unit(&at.verb, !at.context.in_unit) && is_unsent(keep, terminal, at.context.units + 1)
}

/// Whether the unit has not ended, and the backup neither holds its start nor is sent anything.
fn is_unsent<D: Disc>(keep: &Keep<D>, terminal: u32, unit: u32) -> bool
    requires there { terminal < length keep.now.system.terminals }
    requires known { IsKnown keep.now.system (kept_in D.told keep.now) }
    ensures { result ≡ (not (((kept_in D.told keep.now).disc.ended terminal).number == unit)
        && (not (start_held keep.now.system (kept_in D.told keep.now) terminal unit)
        && not (flies keep.now.system (kept_in D.told keep.now) terminal))) }
{
    last_ended(keep, terminal) != unit && is_unheld(keep, terminal, unit)
}

/// Whether the backup neither holds the start of the unit nor is sent anything.
fn is_unheld<D: Disc>(keep: &Keep<D>, terminal: u32, unit: u32) -> bool
    requires there { terminal < length keep.now.system.terminals }
    requires known { IsKnown keep.now.system (kept_in D.told keep.now) }
    ensures { result ≡ (not (start_held keep.now.system (kept_in D.told keep.now) terminal unit)
        && not (flies keep.now.system (kept_in D.told keep.now) terminal)) }
{
    !is_start_held(keep, terminal, unit) && !pair_of(keep, terminal).in_flight(terminal)
}

/// CHECK END: a transaction is to end, and the backup neither holds its end nor is sent anything.
pub fn may_check_end<D: Disc>(keep: &Keep<D>, terminal: u32) -> bool
    requires there { terminal < length keep.now.system.terminals }
    requires known { IsKnown keep.now.system (kept_in D.told keep.now) }
    ensures { result ≡ may_check_end keep.now.system (kept_in D.told keep.now) terminal }
{
    match stepping(keep, terminal) {
        Some(at) => is_end_due(keep, terminal, at),
        None => false,
    }
}

/// Whether a transaction is to end whose end is wanted.
fn is_end_due<D: Disc>(keep: &Keep<D>, terminal: u32, at: &Ready) -> bool
    requires there { terminal < length keep.now.system.terminals }
    requires known { IsKnown keep.now.system (kept_in D.told keep.now) }
    requires counts { IsFewCounted at.now.context }
    ensures { result ≡ (is_some (closing at.now.verb)
        && (not (passes (holds_end (image_of (behind_end at.now.context)))
        (seat_at keep.now.system (kept_in D.told keep.now) terminal))
        && not (flies keep.now.system (kept_in D.told keep.now) terminal))) }
{
    closes(&at.verb) && is_end_wanted(keep, terminal, at)
}

/// Whether the backup neither holds the end that the program's answer makes nor is sent anything.
fn is_end_wanted<D: Disc>(keep: &Keep<D>, terminal: u32, at: &Ready) -> bool
    requires there { terminal < length keep.now.system.terminals }
    requires known { IsKnown keep.now.system (kept_in D.told keep.now) }
    requires counts { IsFewCounted at.now.context }
    ensures { result ≡ (not (passes (holds_end (image_of (behind_end at.now.context)))
        (seat_at keep.now.system (kept_in D.told keep.now) terminal))
        && not (flies keep.now.system (kept_in D.told keep.now) terminal)) }
{
    !is_end_held(keep, terminal, at) && !pair_of(keep, terminal).in_flight(terminal)
}

/// BEGIN: a unit of this number is to begin, behind so many restarts, the backup holds its start,
/// and the unit that it awaits has ended.
pub fn may_begin<D: Disc>(keep: &Keep<D>, terminal: u32, unit: u32, restarts: u32) -> bool
    requires there { terminal < length keep.now.system.terminals }
    requires known { IsKnown keep.now.system (kept_in D.told keep.now) }
    ensures { result ≡ may_begin keep.now.system (kept_in D.told keep.now) terminal unit restarts }
{
    match stepping(keep, terminal) {
        Some(at) => is_begun_by(keep, terminal, at, unit, restarts),
        None => false,
    }
}

/// Whether no attempt runs, and a unit of this number is to begin, and may.
fn is_begun_by<D: Disc>(keep: &Keep<D>, terminal: u32, at: &Ready, unit: u32, restarts: u32) -> bool
    requires there { terminal < length keep.now.system.terminals }
    requires known { IsKnown keep.now.system (kept_in D.told keep.now) }
    requires counts { IsFewCounted at.now.context }
    ensures { result ≡ (is_none ((kept_in D.told keep.now).terminals terminal).start
        && (begins_unit at.now.verb (not at.now.context.in_unit)
        && (unit == unit_in at.now.context
        && (not (((kept_in D.told keep.now).disc.ended terminal).number == unit)
        && (is_over (kept_in D.told keep.now).disc.ended ((kept_in D.told keep.now).terminals terminal).awaits
        && (start_held keep.now.system (kept_in D.told keep.now) terminal (unit_in at.now.context)
        && restarts == ((kept_in D.told keep.now).terminals terminal).restarts)))))) }
{
    keep.seat(terminal).start.is_none() && begins(keep, terminal, at, unit, restarts)
}

/// Whether a unit of this number is to begin, and may.
fn begins<D: Disc>(keep: &Keep<D>, terminal: u32, at: &Ready, unit: u32, restarts: u32) -> bool
    requires there { terminal < length keep.now.system.terminals }
    requires known { IsKnown keep.now.system (kept_in D.told keep.now) }
    requires counts { IsFewCounted at.now.context }
    ensures { result ≡ (begins_unit at.now.verb (not at.now.context.in_unit)
        && (unit == unit_in at.now.context
        && (not (((kept_in D.told keep.now).disc.ended terminal).number == unit)
        && (is_over (kept_in D.told keep.now).disc.ended ((kept_in D.told keep.now).terminals terminal).awaits
        && (start_held keep.now.system (kept_in D.told keep.now) terminal (unit_in at.now.context)
        && restarts == ((kept_in D.told keep.now).terminals terminal).restarts))))) }
{
    begins_unit(&at.verb, !at.context.in_unit)
        && unit == at.context.units + 1
        && may_begin_now(keep, terminal, unit, restarts)
}

/// Whether the unit has not ended, the unit that it awaits has, the backup holds its start, and it has
/// so many restarts.
fn may_begin_now<D: Disc>(keep: &Keep<D>, terminal: u32, unit: u32, restarts: u32) -> bool
    requires there { terminal < length keep.now.system.terminals }
    requires known { IsKnown keep.now.system (kept_in D.told keep.now) }
    ensures { result ≡ (not (((kept_in D.told keep.now).disc.ended terminal).number == unit)
        && (is_over (kept_in D.told keep.now).disc.ended ((kept_in D.told keep.now).terminals terminal).awaits
        && (start_held keep.now.system (kept_in D.told keep.now) terminal unit
        && restarts == ((kept_in D.told keep.now).terminals terminal).restarts))) }
{
    last_ended(keep, terminal) != unit && is_prepared(keep, terminal, unit, restarts)
}

/// Whether the unit that is awaited has ended, the backup holds the start of this one, and it has so
/// many restarts.
fn is_prepared<D: Disc>(keep: &Keep<D>, terminal: u32, unit: u32, restarts: u32) -> bool
    requires there { terminal < length keep.now.system.terminals }
    requires known { IsKnown keep.now.system (kept_in D.told keep.now) }
    ensures { result ≡ (is_over (kept_in D.told keep.now).disc.ended ((kept_in D.told keep.now).terminals terminal).awaits
        && (start_held keep.now.system (kept_in D.told keep.now) terminal unit
        && restarts == ((kept_in D.told keep.now).terminals terminal).restarts)) }
{
    awaits_none(keep, terminal) && is_held_at(keep, terminal, unit, restarts)
}

/// Whether the unit that the terminal awaits, if any, has ended.
fn awaits_none<D: Disc>(keep: &Keep<D>, terminal: u32) -> bool
    requires there { terminal < length keep.now.system.terminals }
    requires known { IsKnown keep.now.system (kept_in D.told keep.now) }
    ensures { result ≡ is_over (kept_in D.told keep.now).disc.ended ((kept_in D.told keep.now).terminals terminal).awaits }
{
    is_over(keep, keep.seat(terminal).awaits)
}

/// Whether the backup holds the start of the unit, which has so many restarts.
fn is_held_at<D: Disc>(keep: &Keep<D>, terminal: u32, unit: u32, restarts: u32) -> bool
    requires there { terminal < length keep.now.system.terminals }
    requires known { IsKnown keep.now.system (kept_in D.told keep.now) }
    ensures { result ≡ (start_held keep.now.system (kept_in D.told keep.now) terminal unit
        && restarts == ((kept_in D.told keep.now).terminals terminal).restarts) }
{
    is_start_held(keep, terminal, unit) && restarts == keep.seat(terminal).restarts
}

/// COMMIT: the transaction is to end with its changes, and the backup holds its end.
pub fn may_commit<D: Disc>(keep: &Keep<D>, terminal: u32, unit: u32) -> bool
    requires there { terminal < length keep.now.system.terminals }
    requires known { IsKnown keep.now.system (kept_in D.told keep.now) }
    ensures { result ≡ may_commit keep.now.system (kept_in D.told keep.now) terminal unit }
{
    match stepping(keep, terminal) {
        Some(at) => is_committed_by(keep, terminal, at, unit),
        None => false,
    }
}

/// Whether the transaction is to end with its changes, and the backup holds its end.
fn is_committed_by<D: Disc>(keep: &Keep<D>, terminal: u32, at: &Ready, unit: u32) -> bool
    requires there { terminal < length keep.now.system.terminals }
    requires known { IsKnown keep.now.system (kept_in D.told keep.now) }
    requires counts { IsFewCounted at.now.context }
    ensures { result ≡ (asks_end at.now.verb
        && (unit == unit_in at.now.context
        && passes (holds_end (image_of (behind_end at.now.context)))
        (seat_at keep.now.system (kept_in D.told keep.now) terminal))) }
{
    asks_end(&at.verb) && is_ended(keep, terminal, at, unit)
}

/// Whether the unit has this number, and the backup holds its end.
fn is_ended<D: Disc>(keep: &Keep<D>, terminal: u32, at: &Ready, unit: u32) -> bool
    requires there { terminal < length keep.now.system.terminals }
    requires known { IsKnown keep.now.system (kept_in D.told keep.now) }
    requires counts { IsFewCounted at.now.context }
    ensures { result ≡ (unit == unit_in at.now.context
        && passes (holds_end (image_of (behind_end at.now.context)))
        (seat_at keep.now.system (kept_in D.told keep.now) terminal)) }
{
    unit == at.context.units + 1 && is_end_held(keep, terminal, at)
}

/// BACK: the transaction is to end without its changes, and the backup holds its end.
pub fn may_back<D: Disc>(keep: &Keep<D>, terminal: u32, unit: u32) -> bool
    requires there { terminal < length keep.now.system.terminals }
    requires known { IsKnown keep.now.system (kept_in D.told keep.now) }
    ensures { result ≡ may_back keep.now.system (kept_in D.told keep.now) terminal unit }
{
    match stepping(keep, terminal) {
        Some(at) => is_dropped_by(keep, terminal, at, unit),
        None => false,
    }
}

/// Whether the transaction is to end without its changes, and the backup holds its end.
fn is_dropped_by<D: Disc>(keep: &Keep<D>, terminal: u32, at: &Ready, unit: u32) -> bool
    requires there { terminal < length keep.now.system.terminals }
    requires known { IsKnown keep.now.system (kept_in D.told keep.now) }
    requires counts { IsFewCounted at.now.context }
    ensures { result ≡ (asks_drop at.now.verb
        && (unit == unit_in at.now.context
        && passes (holds_end (image_of (behind_end at.now.context)))
        (seat_at keep.now.system (kept_in D.told keep.now) terminal))) }
{
    asks_drop(&at.verb) && is_ended(keep, terminal, at, unit)
}
