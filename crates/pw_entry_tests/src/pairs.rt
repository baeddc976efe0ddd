//! The entries of a pair, and END LOST.

ghost use Rattle.std.specs.Prelude.{◌≡◌, ◌&&◌, ◌<◌, IfSome, is_none, length};
ghost use Rattle.pw_world_store.specs.Keeps.{kept_in};
ghost use Rattle.pw_world_state.specs.PairTests.{is_in, may_apply, may_copy, may_lose, may_raise, may_take_over};
ghost use Rattle.pw_paired.specs.Raising.{is_takeover};
ghost use Rattle.pw_paired.specs.Units.{any_below};
ghost use Rattle.pw_entry_tests.specs.Known.{IsKnown};

use crate::terminals::{is_live, pair_of, tcp_of};
use crate::verbs::{is_sending, is_takeover};
use pw_pair::mode::Mode;
use pw_tmf::disc::Disc;
use pw_world_store::keep::Keep;

/// CHECK COPY: the terminal is live, and a new backup neither holds it nor is sent anything of it.
pub fn may_copy<D: Disc>(keep: &Keep<D>, terminal: u32) -> bool
    requires there { terminal < length keep.now.system.terminals }
    requires known { IsKnown keep.now.system (kept_in D.told keep.now) }
    ensures { result ≡ may_copy keep.now.system (kept_in D.told keep.now) terminal }
{
    let pair = pair_of(keep, terminal);
    is_live(keep, terminal)
        && pair.mode() == Mode::Raising
        && !pair.holds(terminal)
        && !pair.in_flight(terminal)
}

/// APPLIED: a message of the terminal is in flight.
pub fn may_apply<D: Disc>(keep: &Keep<D>, terminal: u32) -> bool
    requires there { terminal < length keep.now.system.terminals }
    requires known { IsKnown keep.now.system (kept_in D.told keep.now) }
    ensures { result ≡ may_apply keep.now.system (kept_in D.told keep.now) terminal }
{
    let pair = pair_of(keep, terminal);
    pair.in_flight(terminal) && is_sending(pair.mode())
}

/// RAISE: the pair works alone, a terminal of it is live, and no takeover is pending for one.
pub fn may_raise<D: Disc>(keep: &Keep<D>, tcp: u32) -> bool
    requires there { tcp < length keep.now.system.tcps }
    requires known { IsKnown keep.now.system (kept_in D.told keep.now) }
    ensures { result ≡ may_raise keep.now.system (kept_in D.told keep.now) tcp }
{
    keep.pair(tcp).mode() == Mode::Alone && has_live(keep, tcp) && !has_takeover(keep, tcp)
}

/// Whether a terminal of the pair has no ending.
#[tactic(auto, using(crate::proofs::Anywhere::any_more))]
fn has_live<D: Disc>(keep: &Keep<D>, tcp: u32) -> bool
    requires known { IsKnown keep.now.system (kept_in D.told keep.now) }
    ensures { result ≡ any_below (length keep.now.system.terminals)
        (λ t. is_in keep.now.system tcp t && is_none ((kept_in D.told keep.now).terminals t).ending) }
{
    let mut found = false;
    for terminal in 0..keep.system().terminals.len() as u32 {
        found |= is_live_in(keep, tcp, terminal);
    }
    found
}

/// Whether a terminal is of the pair and has no ending.
fn is_live_in<D: Disc>(keep: &Keep<D>, tcp: u32, terminal: u32) -> bool
    requires there { terminal < length keep.now.system.terminals }
    ensures { result ≡ (is_in keep.now.system tcp terminal
        && is_none ((kept_in D.told keep.now).terminals terminal).ending) }
{
    tcp_of(keep.system(), terminal) == tcp && keep.seat(terminal).ending.is_none()
}

/// Whether a takeover is pending for a terminal of the pair.
#[tactic(auto, using(crate::proofs::Anywhere::any_more))]
fn has_takeover<D: Disc>(keep: &Keep<D>, tcp: u32) -> bool
    requires known { IsKnown keep.now.system (kept_in D.told keep.now) }
    ensures { result ≡ any_below (length keep.now.system.terminals)
        (λ t. is_in keep.now.system tcp t && is_takeover ((kept_in D.told keep.now).terminals t).pending) }
{
    let mut found = false;
    for terminal in 0..keep.system().terminals.len() as u32 {
        found |= is_taken_over(keep, tcp, terminal);
    }
    found
}

/// Whether a terminal is of the pair and a takeover is pending for it.
fn is_taken_over<D: Disc>(keep: &Keep<D>, tcp: u32, terminal: u32) -> bool
    requires there { terminal < length keep.now.system.terminals }
    ensures { result ≡ (is_in keep.now.system tcp terminal
        && is_takeover ((kept_in D.told keep.now).terminals terminal).pending) }
{
    tcp_of(keep.system(), terminal) == tcp && is_takeover(keep.seat(terminal).pending)
}

/// TAKEOVER: the primary of the pair has failed.
pub fn may_take_over<D: Disc>(keep: &Keep<D>, tcp: u32) -> bool
    requires there { tcp < length keep.now.system.tcps }
    ensures { result ≡ may_take_over (kept_in D.told keep.now) tcp }
{
    keep.pair(tcp).mode() == Mode::Down
}

/// END LOST: the terminal is live, and no member of its pair is left.
pub fn may_lose<D: Disc>(keep: &Keep<D>, terminal: u32) -> bool
    requires there { terminal < length keep.now.system.terminals }
    requires known { IsKnown keep.now.system (kept_in D.told keep.now) }
    ensures { result ≡ may_lose keep.now.system (kept_in D.told keep.now) terminal }
{
    is_live(keep, terminal) && pair_of(keep, terminal).mode() == Mode::Gone
}
