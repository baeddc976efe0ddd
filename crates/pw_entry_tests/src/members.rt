//! A step of a pair: its own, or one for a terminal of it.

ghost use Rattle.std.specs.Prelude.{◌≡◌, ◌&&◌, ◌<◌, Some, false, if◌then◌else◌, length};
ghost use Rattle.pw_world_store.specs.Keeps.{kept_in};
ghost use Rattle.pw_world_state.specs.Entered.{tcp_of};
ghost use Rattle.pw_world_state.specs.PairTests.{may_apply, may_raise, may_take_over};
ghost use Rattle.pw_world_state.specs.TerminalTests.{seat_at};
ghost use Rattle.pw_pair.specs.Pairs.{passes};
ghost use Rattle.pw_pair.specs.Seats.{is_waiting};
ghost use Rattle.pw_actor_queue.specs.declared.actor.Actor.TheVariants.{Pair};
ghost use Rattle.pw_entry_tests.specs.Known.{IsKnown};
ghost use Rattle.pw_entry_tests.specs.Members.{IsBuiltFound};
ghost use Rattle.pw_entry_tests.specs.Steps.{IsStepFound};

use crate::pairs::{may_apply, may_copy, may_raise, may_take_over};
use crate::terminals::pair_of;
use crate::verbs::is_sending;
use pw_event::event::Event;
use pw_tmf::disc::Disc;
use pw_world_store::keep::Keep;

/// TAKEOVER, RAISE, or an entry for one of its terminals, of a pair.
pub fn pair_step<D: Disc>(keep: &Keep<D>, tcp: u32) -> Option<Event>
    requires there { tcp < length keep.now.system.tcps }
    requires known { IsKnown keep.now.system (kept_in D.told keep.now) }
    ensures { IsStepFound keep.now.system (kept_in D.told keep.now) (Pair tcp) result }
{
    if may_take_over(keep, tcp) {
        return Some(Event::Takeover { tcp });
    }
    if may_raise(keep, tcp) {
        return Some(Event::Raise { tcp });
    }
    if !is_sending(keep.pair(tcp).mode()) {
        return None;
    }
    member_step(keep, tcp)
}

/// CHECK COPY or APPLIED of a pair to whose backup messages fly.
fn member_step<D: Disc>(keep: &Keep<D>, tcp: u32) -> Option<Event>
    requires there { tcp < length keep.now.system.tcps }
    requires known { IsKnown keep.now.system (kept_in D.told keep.now) }
    requires taken { may_take_over (kept_in D.told keep.now) tcp ≡ false }
    requires raised { may_raise keep.now.system (kept_in D.told keep.now) tcp ≡ false }
    ensures { IsStepFound keep.now.system (kept_in D.told keep.now) (Pair tcp) result }
{
    let mut unbuilt = None;
    let seats = keep.pair(tcp).seats();
    for seat in seats {
        if let Some(entry) = built_step(keep, seat.terminal) {
            return Some(entry);
        }
        unbuilt = noted(unbuilt, seat.terminal, is_unbuilt(keep, seat.terminal));
    }
    match unbuilt {
        Some(terminal) => Some(Event::Applied { terminal }),
        None => None,
    }
}

/// CHECK COPY, or APPLIED of a message that is built, for a terminal.
fn built_step<D: Disc>(keep: &Keep<D>, terminal: u32) -> Option<Event>
    requires there { terminal < length keep.now.system.terminals }
    requires known { IsKnown keep.now.system (kept_in D.told keep.now) }
    ensures { IsBuiltFound keep.now.system (kept_in D.told keep.now)
        (tcp_of keep.now.system terminal) terminal result }
{
    if may_copy(keep, terminal) {
        return Some(Event::CheckCopy { terminal });
    }
    if may_apply(keep, terminal) && !waits(keep, terminal) {
        return Some(Event::Applied { terminal });
    }
    None
}

/// Whether a terminal has a message in flight that may be taken in and is not built.
fn is_unbuilt<D: Disc>(keep: &Keep<D>, terminal: u32) -> bool
    requires there { terminal < length keep.now.system.terminals }
    requires known { IsKnown keep.now.system (kept_in D.told keep.now) }
    ensures { result ≡ (may_apply keep.now.system (kept_in D.told keep.now) terminal
        && passes is_waiting (seat_at keep.now.system (kept_in D.told keep.now) terminal)) }
{
    may_apply(keep, terminal) && waits(keep, terminal)
}

/// Whether a terminal has a message in flight that is not built.
fn waits<D: Disc>(keep: &Keep<D>, terminal: u32) -> bool
    requires there { terminal < length keep.now.system.terminals }
    requires known { IsKnown keep.now.system (kept_in D.told keep.now) }
    ensures { result
        ≡ passes is_waiting (seat_at keep.now.system (kept_in D.told keep.now) terminal) }
{
    pair_of(keep, terminal).is_waiting(terminal)
}

/// The terminal where it is to be noted, and else the one that was.
fn noted(known: Option<u32>, terminal: u32, note: bool) -> Option<u32>
    ensures { result ≡ (if note then Some terminal else known) }
{
    if note { Some(terminal) } else { known }
}
