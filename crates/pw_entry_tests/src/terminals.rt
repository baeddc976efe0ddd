//! The entries of a terminal at its own verb, but those that begin and end units.

ghost use Rattle.std.specs.Prelude.{◌≡◌, ◌&&◌, ◌+◌, ◌<◌, ◌==◌, length, nat_le, not};
ghost use Rattle.std.specs.Option.{IfSome, option_copied, option_map};
ghost use Rattle.pw_image.specs.Image.{image_of};
ghost use Rattle.pw_world_store.specs.Keeps.{awaited_as, kept_in};
ghost use Rattle.pw_world_state.specs.Asked.{next_refresh_number, unit_in, verb_in};
ghost use Rattle.pw_world_state.specs.Changes.{runs_told};
ghost use Rattle.pw_world_state.specs.Entered.{tcp_of};
ghost use Rattle.pw_world_state.specs.TerminalTests.{can_step, entry_line_count, is_live, is_out, may_again, may_end_entries, may_fault, may_key, may_send, may_show, may_stop, seen_pair_of, seat_at, start_held};
ghost use Rattle.pw_laws.specs.legal.Terminals.{is_over};
ghost use Rattle.pw_laws.specs.legal.Values.{is_same_refresh};
ghost use Rattle.pw_laws.specs.legal.Verbs.{asks_accept, asks_send, asks_send_to, asks_show};
ghost use Rattle.pw_pair.specs.Pairs.{passes};
ghost use Rattle.pw_pair.specs.Seats.{holds_end};
ghost use Rattle.pw_world_store.specs.declared.seat.Ready.{Ready as SeenReady};
ghost use Rattle.pw_entry_tests.specs.Images.{behind_end};
ghost use Rattle.pw_entry_tests.specs.Known.{IsFewCounted, IsKnown, stepping};

use crate::images::{is_end_image, is_image};
use crate::verbs::{asks_accept, asks_fault, asks_send, asks_send_to, asks_show, asks_stop};
use pw_code::context::Context;
use pw_code::system::System;
use pw_pair::mode::Mode;
use pw_pair::pair::Pair;
use pw_tcp::refresh::refresh;
use pw_tmf::disc::Disc;
use pw_world_store::keep::Keep;
use pw_world_store::seat::{AwaitedUnit, Ready};

/// The pair of a terminal, by its number.
pub fn tcp_of(system: &System, terminal: u32) -> u32
    ensures { result ≡ tcp_of system.now terminal }
{
    match system.terminals.get(terminal as usize) {
        Some(info) => info.tcp,
        None => 0,
    }
}

/// How many entry lines a terminal has.
pub fn entries_of(system: &System, terminal: u32) -> usize
    ensures { result ≡ entry_line_count system.now terminal }
{
    match system.terminals.get(terminal as usize) {
        Some(info) => info.entries.len(),
        None => 0,
    }
}

/// The pair of a terminal.
pub fn pair_of<D: Disc>(keep: &Keep<D>, terminal: u32) -> &Pair
    requires there { terminal < length keep.now.system.terminals }
    requires known { IsKnown keep.now.system (kept_in D.told keep.now) }
    ensures { result.now ≡ seen_pair_of keep.now.system (kept_in D.told keep.now) terminal }
{
    keep.pair(tcp_of(keep.system(), terminal))
}

/// Whether a terminal has no ending.
pub fn is_live<D: Disc>(keep: &Keep<D>, terminal: u32) -> bool
    requires there { terminal < length keep.now.system.terminals }
    ensures { result ≡ is_live keep.now.system (kept_in D.told keep.now) terminal }
{
    keep.seat(terminal).ending.is_none()
}

/// Whether a terminal is live, its pair is Paired and no cause is pending for it.
pub fn can_step<D: Disc>(keep: &Keep<D>, terminal: u32) -> bool
    requires there { terminal < length keep.now.system.terminals }
    requires known { IsKnown keep.now.system (kept_in D.told keep.now) }
    ensures { result ≡ can_step keep.now.system (kept_in D.told keep.now) terminal }
{
    is_live(keep, terminal)
        && pair_of(keep, terminal).mode() == Mode::Paired
        && keep.seat(terminal).pending.is_none()
}

/// The program of a terminal at its verb, where the terminal can step.
pub fn stepping<D: Disc>(keep: &Keep<D>, terminal: u32) -> Option<&Ready>
    requires there { terminal < length keep.now.system.terminals }
    requires known { IsKnown keep.now.system (kept_in D.told keep.now) }
    ensures context { option_map (λ (at : SeenReady). at.context) (option_copied result)
        ≡ stepping keep.now.system (kept_in D.told keep.now) terminal }
    ensures verb { IfSome result (λ at. at.now.verb ≡ verb_in keep.now.system at.now.context) }
    ensures counts { IfSome result (λ at. IsFewCounted at.now.context) }
{
    if can_step(keep, terminal) {
        keep.seat(terminal).ready.as_ref()
    } else {
        None
    }
}

/// The number of a terminal's last ended unit, 0 where none has ended.
pub fn last_ended<D: Disc>(keep: &Keep<D>, terminal: u32) -> u32
    requires there { terminal < length keep.now.system.terminals }
    ensures { result ≡ ((kept_in D.told keep.now).disc.ended terminal).number }
{
    match keep.ended(terminal) {
        Some(last) => last.number,
        None => 0,
    }
}

/// Whether the backup holds the start of a unit, which is the terminal's path.
pub fn is_start_held<D: Disc>(keep: &Keep<D>, terminal: u32, unit: u32) -> bool
    requires there { terminal < length keep.now.system.terminals }
    requires known { IsKnown keep.now.system (kept_in D.told keep.now) }
    ensures { result ≡ start_held keep.now.system (kept_in D.told keep.now) terminal unit }
{
    let Some(context) = &keep.seat(terminal).context else {
        return false;
    };
    let Some(seat) = pair_of(keep, terminal).seat(terminal) else {
        return false;
    };
    match &seat.memory {
        Some(held) => held.unit == unit && is_image(held.start.as_slice(), context),
        None => false,
    }
}

/// Whether the backup holds the end that the program's answer makes of the terminal's path, where the
/// program stands at the end of a transaction.
pub fn is_end_held<D: Disc>(keep: &Keep<D>, terminal: u32, at: &Ready) -> bool
    requires there { terminal < length keep.now.system.terminals }
    requires known { IsKnown keep.now.system (kept_in D.told keep.now) }
    requires counts { IsFewCounted at.now.context }
    ensures { result ≡ passes (holds_end (image_of (behind_end at.now.context)))
        (seat_at keep.now.system (kept_in D.told keep.now) terminal) }
{
    let Some(seat) = pair_of(keep, terminal).seat(terminal) else {
        return false;
    };
    let Some(held) = &seat.memory else {
        return false;
    };
    match &held.end {
        Some(end) => is_end_image(end.as_slice(), &at.context),
        None => false,
    }
}

/// Whether an attempt of the terminal's unit of this number runs.
fn runs_unit<D: Disc>(keep: &Keep<D>, terminal: u32, unit: u32) -> bool
    requires there { terminal < length keep.now.system.terminals }
    requires known { IsKnown keep.now.system (kept_in D.told keep.now) }
    ensures { result ≡ runs_told unit ((kept_in D.told keep.now).disc.units terminal) }
{
    let seat = keep.seat(terminal);
    match seat.unit {
        Some(open) => open.number == unit && seat.start.is_some(),
        None => false,
    }
}

/// Whether the awaited unit, if any, has ended.
pub fn is_over<D: Disc>(keep: &Keep<D>, awaited: Option<AwaitedUnit>) -> bool
    requires { IfSome awaited (λ one. one.terminal < length keep.now.system.terminals) }
    ensures { result ≡ is_over (kept_in D.told keep.now).disc.ended (option_map awaited_as awaited) }
{
    match awaited {
        Some(awaited) => awaited.number <= last_ended(keep, awaited.terminal),
        None => true,
    }
}

/// SHOW: the program shows its screen, as this refresh.
pub fn may_show<D: Disc>(keep: &Keep<D>, terminal: u32, phase: u32, attempt: u32, k: u32) -> bool
    requires there { terminal < length keep.now.system.terminals }
    requires known { IsKnown keep.now.system (kept_in D.told keep.now) }
    ensures { result ≡ may_show keep.now.system (kept_in D.told keep.now) terminal phase attempt k }
{
    match stepping(keep, terminal) {
        Some(at) => shows(at, phase, attempt, k),
        None => false,
    }
}

/// Whether the program shows its screen, as this refresh.
fn shows(at: &Ready, phase: u32, attempt: u32, k: u32) -> bool
    requires { IsFewCounted at.now.context }
    ensures { result ≡ (asks_show at.now.verb && is_same_refresh (next_refresh_number at.now.context)
        (record { phase = phase; attempt = attempt; k = k })) }
{
    asks_show(&at.verb) && is_refresh(&at.context, phase, attempt, k)
}

/// Whether this is the number of the next refresh.
fn is_refresh(context: &Context, phase: u32, attempt: u32, k: u32) -> bool
    requires { IsFewCounted context.now }
    ensures { result ≡ is_same_refresh (next_refresh_number context.now)
        (record { phase = phase; attempt = attempt; k = k }) }
{
    let (next_phase, next_attempt, next) = refresh_of(context);
    next_phase == phase && is_shown_as(next_attempt, next, attempt, k)
}

/// Whether these are one attempt and one number in it.
fn is_shown_as(own_attempt: u32, own: u32, attempt: u32, k: u32) -> bool
    ensures { result ≡ (own_attempt == attempt && own == k) }
{
    own_attempt == attempt && own == k
}

/// The number of the next refresh: phase, attempt and the number in them.
pub fn refresh_of(context: &Context) -> (u32, u32, u32)
    requires { IsFewCounted context.now }
    ensures { record { phase = result.0; attempt = result.1; k = result.2 }
        ≡ next_refresh_number context.now }
{
    refresh(context)
}

/// KEY: the program takes its next entry line, and that is there.
pub fn may_key<D: Disc>(keep: &Keep<D>, terminal: u32, k: u32) -> bool
    requires there { terminal < length keep.now.system.terminals }
    requires known { IsKnown keep.now.system (kept_in D.told keep.now) }
    ensures { result ≡ may_key keep.now.system (kept_in D.told keep.now) terminal k }
{
    match stepping(keep, terminal) {
        Some(at) => takes(at, k, entries_of(keep.system(), terminal)),
        None => false,
    }
}

/// Whether the program takes an entry line, which is this one, of so many.
fn takes(at: &Ready, k: u32, entries: usize) -> bool
    requires { IsFewCounted at.now.context }
    ensures { result ≡ (asks_accept at.now.verb && (k == at.now.context.entries + 1 && nat_le k entries)) }
{
    asks_accept(&at.verb) && is_next_line(&at.context, k, entries)
}

/// Whether the next entry line is this one, of so many.
fn is_next_line(context: &Context, k: u32, entries: usize) -> bool
    requires { IsFewCounted context.now }
    ensures { result ≡ (k == context.now.entries + 1 && nat_le k entries) }
{
    k == context.entries + 1 && k as usize <= entries
}

/// SEND: an attempt of the unit runs, the program sends to the class, and no request of it is out.
pub fn may_send<D: Disc>(keep: &Keep<D>, terminal: u32, unit: u32, class: u32) -> bool
    requires there { terminal < length keep.now.system.terminals }
    requires known { IsKnown keep.now.system (kept_in D.told keep.now) }
    ensures { result ≡ may_send keep.now.system (kept_in D.told keep.now) terminal unit class }
{
    match stepping(keep, terminal) {
        Some(at) => is_sent_by(keep, terminal, at, unit, class),
        None => false,
    }
}

/// Whether an attempt of the unit runs, and its request is to go to the class.
fn is_sent_by<D: Disc>(keep: &Keep<D>, terminal: u32, at: &Ready, unit: u32, class: u32) -> bool
    requires there { terminal < length keep.now.system.terminals }
    requires known { IsKnown keep.now.system (kept_in D.told keep.now) }
    requires counts { IsFewCounted at.now.context }
    ensures { result ≡ (runs_told unit ((kept_in D.told keep.now).disc.units terminal)
        && (asks_send_to class at.now.verb && not (is_out keep.now.system (kept_in D.told keep.now) terminal))) }
{
    runs_unit(keep, terminal, unit) && sends(keep, terminal, at, class)
}

/// Whether the program sends to the class, and no request of it is out.
fn sends<D: Disc>(keep: &Keep<D>, terminal: u32, at: &Ready, class: u32) -> bool
    requires there { terminal < length keep.now.system.terminals }
    ensures { result ≡ (asks_send_to class at.now.verb
        && not (is_out keep.now.system (kept_in D.told keep.now) terminal)) }
{
    asks_send_to(&at.verb, class) && !keep.is_out(terminal)
}

/// AGAIN: the program sends outside a transaction, and the unit that this would be has ended.
pub fn may_again<D: Disc>(keep: &Keep<D>, terminal: u32, unit: u32) -> bool
    requires there { terminal < length keep.now.system.terminals }
    requires known { IsKnown keep.now.system (kept_in D.told keep.now) }
    ensures { result ≡ may_again keep.now.system (kept_in D.told keep.now) terminal unit }
{
    match stepping(keep, terminal) {
        Some(at) => is_told_again(keep, terminal, at, unit),
        None => false,
    }
}

/// Whether the program sends outside a transaction, and the unit that this would be has ended.
fn is_told_again<D: Disc>(keep: &Keep<D>, terminal: u32, at: &Ready, unit: u32) -> bool
    requires there { terminal < length keep.now.system.terminals }
    requires known { IsKnown keep.now.system (kept_in D.told keep.now) }
    requires counts { IsFewCounted at.now.context }
    ensures { result ≡ (asks_send at.now.verb
        && (not at.now.context.in_unit
        && (unit == unit_in at.now.context && ((kept_in D.told keep.now).disc.ended terminal).number == unit))) }
{
    asks_send(&at.verb) && is_again(at, unit, last_ended(keep, terminal))
}

/// Whether the program is outside a transaction, and this is its next unit, and the last ended one.
fn is_again(at: &Ready, unit: u32, last: u32) -> bool
    requires { IsFewCounted at.now.context }
    ensures { result ≡ (not at.now.context.in_unit && (unit == unit_in at.now.context && last == unit)) }
{
    !at.context.in_unit && is_next_unit(&at.context, unit, last)
}

/// Whether this is the next unit, and the last ended one.
fn is_next_unit(context: &Context, unit: u32, last: u32) -> bool
    requires { IsFewCounted context.now }
    ensures { result ≡ (unit == unit_in context.now && last == unit) }
{
    unit == context.units + 1 && last == unit
}

/// END STOPPED: the program stops.
pub fn may_stop<D: Disc>(keep: &Keep<D>, terminal: u32) -> bool
    requires there { terminal < length keep.now.system.terminals }
    requires known { IsKnown keep.now.system (kept_in D.told keep.now) }
    ensures { result ≡ may_stop keep.now.system (kept_in D.told keep.now) terminal }
{
    match stepping(keep, terminal) {
        Some(at) => asks_stop(&at.verb),
        None => false,
    }
}

/// END NOENTRIES: the program awaits an entry line, and none is left.
pub fn may_end_entries<D: Disc>(keep: &Keep<D>, terminal: u32) -> bool
    requires there { terminal < length keep.now.system.terminals }
    requires known { IsKnown keep.now.system (kept_in D.told keep.now) }
    ensures { result ≡ may_end_entries keep.now.system (kept_in D.told keep.now) terminal }
{
    match stepping(keep, terminal) {
        Some(at) => ends_entries(at, entries_of(keep.system(), terminal)),
        None => false,
    }
}

/// Whether the program awaits an entry line, and so many were taken.
fn ends_entries(at: &Ready, entries: usize) -> bool
    ensures { result ≡ (asks_accept at.now.verb && at.now.context.entries == entries) }
{
    asks_accept(&at.verb) && at.context.entries as usize == entries
}

/// END FAULT: the program has this run fault.
pub fn may_fault<D: Disc>(keep: &Keep<D>, terminal: u32, fault: u16) -> bool
    requires there { terminal < length keep.now.system.terminals }
    requires known { IsKnown keep.now.system (kept_in D.told keep.now) }
    ensures { result ≡ may_fault keep.now.system (kept_in D.told keep.now) terminal fault }
{
    match stepping(keep, terminal) {
        Some(at) => asks_fault(&at.verb, fault),
        None => false,
    }
}
