//! The own next step of a terminal whose program stands at its verb.

ghost use Rattle.std.specs.Prelude.{◌≡◌, ◌&&◌, ◌<◌, length};
ghost use Rattle.std.specs.Option.{ForSome, IfSome, option_copied, option_map};
ghost use Rattle.pw_image.specs.Image.{image_of};
ghost use Rattle.pw_pair.specs.Pairs.{passes};
ghost use Rattle.pw_pair.specs.Seats.{holds_end};
ghost use Rattle.pw_tcp.specs.NextStep.{needs_end, needs_start};
ghost use Rattle.pw_world_state.specs.Asked.{verb_in};
ghost use Rattle.pw_world_state.specs.NextSteps.{HasNoVerbStep, MayStepAt, entry_at, has_member, note_at, plain_note_at, standing, terminal_at};
ghost use Rattle.pw_world_state.specs.TerminalTests.{is_live, seat_at, seen_pair_of, start_held};
ghost use Rattle.pw_world_store.specs.Keeps.{kept_in};
ghost use Rattle.pw_world_store.specs.declared.seat.Ready.{Ready as SeenReady};
ghost use Rattle.pw_entry_tests.specs.Images.{behind_end};
ghost use Rattle.pw_entry_tests.specs.Known.{IsFewCounted, IsKnown, StandsThere};
ghost use Rattle.pw_entry_tests.specs.Steps.{IsFoundOr, next_entry_at};

use crate::causes::most_restarts;
use crate::terminals::{
    entries_of, is_end_held, is_live, is_over, is_start_held, last_ended, pair_of, refresh_of,
};
use crate::verbs::{class_of, has_member, pending_of};
use pw_event::event::{Cause, Ending, Event};
use pw_pair::mode::Mode;
use pw_tcp::step::{TcpStep, needs_end, needs_start, next_step};
use pw_tcp::terminal::{Note, Terminal};
use pw_tmf::disc::Disc;
use pw_world_store::keep::Keep;
use pw_world_store::seat::Ready;

/// The entry of the next step of a terminal whose program stands at its verb. None comes only where none of the entries
/// at its verb is a step.
pub fn own_step<D: Disc>(keep: &Keep<D>, terminal: u32) -> Option<Event>
    requires there { terminal < length keep.now.system.terminals }
    requires known { IsKnown keep.now.system (kept_in D.told keep.now) }
    requires next { ForSome (standing keep.now.system (kept_in D.told keep.now) terminal)
        (MayStepAt keep.now.system (kept_in D.told keep.now) terminal) }
    ensures named { ForSome (standing keep.now.system (kept_in D.told keep.now) terminal)
        (λ context. result ≡ next_entry_at keep.now.system (kept_in D.told keep.now) terminal context) }
    ensures found { IsFoundOr keep.now.system (kept_in D.told keep.now) terminal
        (HasNoVerbStep keep.now.system (kept_in D.told keep.now) terminal) result }
{
    match standing(keep, terminal) {
        Some(at) => step_at(keep, terminal, at),
        None => None,
    }
}

/// The program at its verb of a live terminal whose pair has a member at work.
fn standing<D: Disc>(keep: &Keep<D>, terminal: u32) -> Option<&Ready>
    requires there { terminal < length keep.now.system.terminals }
    requires known { IsKnown keep.now.system (kept_in D.told keep.now) }
    ensures context { option_map (λ (at : SeenReady). at.context) (option_copied result)
        ≡ standing keep.now.system (kept_in D.told keep.now) terminal }
    ensures verb { IfSome result (λ at. at.now.verb ≡ verb_in keep.now.system at.now.context) }
    ensures counts { IfSome result (λ at. IsFewCounted at.now.context) }
{
    if is_worked_for(keep, terminal) {
        keep.seat(terminal).ready.as_ref()
    } else {
        None
    }
}

/// Whether a terminal is live, and a member of its pair works.
fn is_worked_for<D: Disc>(keep: &Keep<D>, terminal: u32) -> bool
    requires there { terminal < length keep.now.system.terminals }
    requires known { IsKnown keep.now.system (kept_in D.told keep.now) }
    ensures { result ≡ (is_live keep.now.system (kept_in D.told keep.now) terminal
        && has_member (seen_pair_of keep.now.system (kept_in D.told keep.now) terminal).mode) }
{
    is_live(keep, terminal) && has_member(pair_of(keep, terminal).mode())
}

/// The entry of the next step of a terminal whose program stands so.
fn step_at<D: Disc>(keep: &Keep<D>, terminal: u32, at: &Ready) -> Option<Event>
    requires there { terminal < length keep.now.system.terminals }
    requires known { IsKnown keep.now.system (kept_in D.told keep.now) }
    requires at { StandsThere keep.now.system (kept_in D.told keep.now) terminal at.now }
    requires next { MayStepAt keep.now.system (kept_in D.told keep.now) terminal at.now.context }
    ensures { result ≡ next_entry_at keep.now.system (kept_in D.told keep.now) terminal at.now.context }
{
    let own = terminal_at(keep, terminal, at);
    let note = note_at(keep, terminal, at, &own);
    let most = most_restarts(keep.system(), terminal);
    let step = next_step(&own, &at.verb, at.context.in_unit, &note, most);
    entry_at(keep, terminal, at, step)
}

/// The terminal's unit.
fn terminal_at<D: Disc>(keep: &Keep<D>, terminal: u32, at: &Ready) -> Terminal
    requires there { terminal < length keep.now.system.terminals }
    requires known { IsKnown keep.now.system (kept_in D.told keep.now) }
    requires counts { IsFewCounted at.now.context }
    ensures { result ≡ terminal_at keep.now.system (kept_in D.told keep.now) terminal at.now.context }
{
    let seat = keep.seat(terminal);
    Terminal {
        unit: at.context.units + 1,
        running: seat.start.is_some(),
        restarts: seat.restarts,
        awaited_open: !is_over(keep, seat.awaits),
        pending: pending_of(seat.pending),
        request_out: keep.is_out(terminal),
        entries_left: (at.context.entries as usize) < entries_of(keep.system(), terminal),
    }
}

/// What its pair and TMF have of the terminal; what its backup holds is looked up where the step depends on it.
fn note_at<D: Disc>(keep: &Keep<D>, terminal: u32, at: &Ready, own: &Terminal) -> Note
    requires there { terminal < length keep.now.system.terminals }
    requires known { IsKnown keep.now.system (kept_in D.told keep.now) }
    requires at { StandsThere keep.now.system (kept_in D.told keep.now) terminal at.now }
    requires own { own.now ≡ terminal_at keep.now.system (kept_in D.told keep.now) terminal at.now.context }
    ensures { result ≡ note_at keep.now.system (kept_in D.told keep.now) terminal at.now.context }
{
    let plain = plain_note_at(keep, terminal);
    Note {
        start_held: is_needed_start_held(keep, terminal, at, own, &plain),
        end_held: is_needed_end_held(keep, terminal, at, own, &plain),
        ..plain
    }
}

/// Whether the step depends on whether the backup holds the start, and it does.
fn is_needed_start_held<D: Disc>(
    keep: &Keep<D>,
    terminal: u32,
    at: &Ready,
    own: &Terminal,
    plain: &Note,
) -> bool
    requires there { terminal < length keep.now.system.terminals }
    requires known { IsKnown keep.now.system (kept_in D.told keep.now) }
    ensures { result ≡ (needs_start own.now at.now.verb at.now.context.in_unit plain.now
        && start_held keep.now.system (kept_in D.told keep.now) terminal own.now.unit) }
{
    needs_start(own, &at.verb, at.context.in_unit, plain) && is_start_held(keep, terminal, own.unit)
}

/// Whether the step depends on whether the backup holds the end, and it does.
fn is_needed_end_held<D: Disc>(
    keep: &Keep<D>,
    terminal: u32,
    at: &Ready,
    own: &Terminal,
    plain: &Note,
) -> bool
    requires there { terminal < length keep.now.system.terminals }
    requires known { IsKnown keep.now.system (kept_in D.told keep.now) }
    requires counts { IsFewCounted at.now.context }
    ensures { result ≡ (needs_end own.now at.now.verb plain.now
        && passes (holds_end (image_of (behind_end at.now.context)))
        (seat_at keep.now.system (kept_in D.told keep.now) terminal)) }
{
    needs_end(own, &at.verb, plain) && is_end_held(keep, terminal, at)
}

/// What its pair and TMF have of the terminal, but for what its backup holds.
fn plain_note_at<D: Disc>(keep: &Keep<D>, terminal: u32) -> Note
    requires there { terminal < length keep.now.system.terminals }
    requires known { IsKnown keep.now.system (kept_in D.told keep.now) }
    ensures { result ≡ plain_note_at keep.now.system (kept_in D.told keep.now) terminal }
{
    let pair = pair_of(keep, terminal);
    Note {
        paired: pair.mode() == Mode::Paired,
        in_flight: pair.in_flight(terminal),
        start_held: false,
        end_held: false,
        ended: last_ended(keep, terminal),
    }
}

/// The entry that a step names, and none for Wait.
fn entry_at<D: Disc>(keep: &Keep<D>, terminal: u32, at: &Ready, step: TcpStep) -> Option<Event>
    requires there { terminal < length keep.now.system.terminals }
    requires at { StandsThere keep.now.system (kept_in D.told keep.now) terminal at.now }
    ensures { result ≡ entry_at keep.now.system (kept_in D.told keep.now) terminal at.now.context step }
{
    let unit = at.context.units + 1;
    let seat = keep.seat(terminal);
    let cause = seat.pending.unwrap_or(Cause::Redo);
    match step {
        TcpStep::Show => {
            let (phase, attempt, k) = refresh_of(&at.context);
            Some(Event::Show {
                terminal,
                phase,
                attempt,
                k,
            })
        }
        TcpStep::Key => Some(Event::Key {
            terminal,
            k: at.context.entries + 1,
        }),
        TcpStep::CheckStart => Some(Event::CheckStart { terminal }),
        TcpStep::CheckEnd => Some(Event::CheckEnd { terminal }),
        TcpStep::Begin => Some(Event::Begin {
            terminal,
            unit,
            restarts: seat.restarts,
        }),
        TcpStep::Again => Some(Event::Again { terminal, unit }),
        TcpStep::Send => Some(Event::Send {
            terminal,
            unit,
            class: class_of(&at.verb),
        }),
        TcpStep::Commit => Some(Event::Commit { terminal, unit }),
        TcpStep::Back => Some(Event::Back { terminal, unit }),
        TcpStep::Restart => Some(Event::Restart {
            terminal,
            unit,
            cause,
        }),
        TcpStep::Suspend => Some(Event::End {
            terminal,
            ending: Ending::Suspended(cause),
        }),
        TcpStep::Stopped => Some(Event::End {
            terminal,
            ending: Ending::Stopped,
        }),
        TcpStep::NoEntries => Some(Event::End {
            terminal,
            ending: Ending::NoEntries,
        }),
        TcpStep::Fault(code) => Some(Event::End {
            terminal,
            ending: Ending::Fault(code),
        }),
        TcpStep::Wait => None,
    }
}
