//! What an entry meets in the world, before it and behind it.

ghost use Rattle.std.specs.Prelude.{◌≡◌, ◌<◌, false, length};
ghost use Rattle.std.specs.Option.{IfSome};
ghost use Rattle.pw_status.specs.Counts.{waiting};
ghost use Rattle.pw_status.specs.Longest.{sent_to};
ghost use Rattle.pw_world_state.specs.May.{IsThere};
ghost use Rattle.pw_world.specs.States.{seen};
ghost use Rattle.pw_world_model.specs.Seen.{state_of};
ghost use Rattle.pw_onecopy.specs.Path.{is_outside};
ghost use Rattle.pw_paired.specs.Terminal.{path_of};
ghost use Rattle.pw_tmf.specs.Tmf.{told_of};
ghost use Rattle.pw_status.specs.Meeting.{ends_then, is_lost, may_end, replied_terminal, waits_then};

use crate::laws::longest_laws;
use crate::tally::Met;
use pw_event::event::Event;
use pw_pair::mode::Mode;
use pw_tmf::tmf::Tmf;
use pw_world::world::World;

/// What an entry that names what is there meets before it.
pub(crate) fn met_before(world: &World<Tmf>, entry: &Event) -> Met
    requires { IsThere world.now.keep.system entry.now }
    ensures { IfSome (replied_terminal entry.now) (λ t. t < length world.now.keep.system.terminals)
        → result.ends ≡ may_end (state_of (seen told_of world.now)) entry.now }
{
    Met {
        ends: may_end(world, entry),
        waiting: 0,
    }
}

/// What an entry has met, behind it.
pub(crate) fn met_behind(world: &World<Tmf>, entry: &Event, before: Met) -> Met
    requires there { IsThere world.now.keep.system entry.now }
    requires class { IfSome (sent_to entry.now) (λ c. c < length world.now.keep.system.classes) }
    ensures { result ≡ record before {
      ends = ends_then (state_of (seen told_of world.now)) entry.now before.ends;
      waiting = waits_then (state_of (seen told_of world.now)) entry.now;
    } }
{
    Met {
        ends: ends_then(world, entry, before.ends),
        waiting: waits_then(world, entry),
        ..before
    }
}

/// Whether a REPLY is of a unit that is one SEND, and whether the pair of a FAIL TCP is not lost yet.
fn may_end(world: &World<Tmf>, entry: &Event) -> bool
    requires { IsThere world.now.keep.system entry.now }
    ensures { IfSome (replied_terminal entry.now) (λ t. t < length world.now.keep.system.terminals)
        → result ≡ may_end (state_of (seen told_of world.now)) entry.now }
{
    match *entry {
        Event::Reply { terminal, .. } => is_outside(world, terminal),
        Event::FailTcp { tcp, .. } => !is_lost(world.mode(tcp)),
        _ => true,
    }
}

/// Whether the path of a terminal, if it is there, is in no transaction.
fn is_outside(world: &World<Tmf>, terminal: u32) -> bool
    ensures { terminal < length world.now.keep.system.terminals
        → result ≡ is_outside (path_of (state_of (seen told_of world.now)) terminal) }
{
    (terminal as usize) < world.system().terminals.len() && world.is_outside(terminal)
}

/// Whether a pair has no member left.
fn is_lost(mode: Mode) -> bool
    ensures { result ≡ is_lost mode }
{
    matches!(mode, Mode::Gone)
}

/// Whether attempts have ended, where they might: those of a pair that is lost now, or those of any other
/// entry.
fn ends_then(world: &World<Tmf>, entry: &Event, before: bool) -> bool
    requires { IsThere world.now.keep.system entry.now }
    ensures { result ≡ ends_then (state_of (seen told_of world.now)) entry.now before }
{
    match *entry {
        Event::FailTcp { tcp, .. } => before && is_lost(world.mode(tcp)),
        _ => before,
    }
}

/// How many requests wait for the class of a SEND.
fn waits_then(world: &World<Tmf>, entry: &Event) -> u32
    requires { IfSome (sent_to entry.now) (λ c. c < length world.now.keep.system.classes) }
    ensures { result ≡ waits_then (state_of (seen told_of world.now)) entry.now }
{
    match *entry {
        Event::Send { class, .. } => waiting(world, class),
        _ => 0,
    }
}

/// How many requests wait for a class.
pub(crate) fn waiting(world: &World<Tmf>, class: u32) -> u32
    requires { class < length world.now.keep.system.classes }
    ensures { result ≡ waiting (state_of (seen told_of world.now)) class }
{
    longest_laws();
    world.holds();
    world.waiting(class) as u32
}
