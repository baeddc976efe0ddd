//! The actors whose state an entry changes.

ghost use Rattle.std.specs.Prelude.{◌≡◌, ◌++◌, ◌∷◌, ◌<◌, [], ℕ, IfOk, OnOk, length, map};
ghost use Rattle.std.specs.List.{list_any};
ghost use Rattle.pw_event.specs.declared.event.Cause.{Cause as SeenCause};
ghost use Rattle.pw_event.specs.declared.event.Event.TheVariants as event;
ghost use Rattle.pw_world_store.specs.Keeps.{kept_in};
ghost use Rattle.pw_world_state.specs.May.{IsThere};
ghost use Rattle.pw_world.specs.States.{seen};
ghost use Rattle.pw_world.specs.Touched.{AreTouched, Grows, asks_at, cancels_at, member, named};
ghost use Rattle.pw_world_model.specs.Pushed.{CanPush};
ghost use Rattle.pw_world_model.specs.Touches.{leaves, loses};
ghost use Rattle.pw_actor_queue.specs.declared.actor.Actor.TheVariants as actor;

use crate::actors::tcp_of;
use crate::world::World;
use pw_actor_queue::actor::Actor;
use pw_base::memory::Memory;
use pw_class::request::RequestPlace;
use pw_code::system::System;
use pw_event::event::{Cause, Ending, Event};
use pw_pair::mode::Mode;
use pw_pair::seat::BackupSeat;
use pw_tmf::disc::Disc;

/// No entry touches more actors itself, but one that cancels the requests of a whole pair: there is room for so many at once.
const USUAL_ACTORS: usize = 4;

impl<D: Disc> World<D> {
    /// The actors that an entry touches itself: all but those of a pair for its change of mode.
    pub(crate) fn touched(&self, entry: &Event) -> Result<Vec<Actor>, Memory>
        requires { CanPush (seen D.told self.now) entry.now }
        ensures { IfOk result (λ actors. AreTouched (seen D.told self.now) entry.now actors.items) }
    {
        let mut actors = Vec::with_capacity(self.alloc, USUAL_ACTORS)?;
        self.push_named(&mut actors, entry)?;
        self.push_cancelled(&mut actors, entry)?;
        Ok(actors)
    }

    /// The actors that an entry names, and those at a process that stops.
    fn push_named(&self, actors: &mut Vec<Actor>, entry: &Event) -> Result<(), Memory>
        requires { IsThere self.now.keep.system entry.now }
        ensures { OnOk result (actors.new.items
            ≡ actors.old.items ++ named self.now.keep.system (kept_in D.told self.now.keep) entry.now) }
    {
        match *entry {
            Event::Show { terminal, .. }
            | Event::Key { terminal, .. }
            | Event::Begin { terminal, .. }
            | Event::Again { terminal, .. }
            | Event::Commit { terminal, .. }
            | Event::Back { terminal, .. } => push_terminal(actors, terminal),
            Event::CheckStart { terminal }
            | Event::CheckEnd { terminal }
            | Event::CheckCopy { terminal }
            | Event::Applied { terminal }
            | Event::End { terminal, .. } => push_member(self.keep.system(), actors, terminal),
            Event::Send {
                terminal,
                class,
                ..
            } => push_sender(actors, terminal, class),
            Event::Take { class, process, .. } | Event::File { class, process, .. } => {
                push_process(actors, class, process)
            }
            Event::Reply {
                class,
                process,
                terminal,
                ..
            } => push_post(actors, class, process, terminal),
            Event::Restart { terminal, .. } => self.push_restarted(actors, terminal),
            Event::FailServer { class, process, .. } => match self.keep.request(class, process) {
                Some(request) => push_post(actors, class, process, request.terminal),
                None => Ok(()),
            },
            Event::FailTcp { .. } | Event::Takeover { .. } | Event::Raise { .. } => Ok(()),
        }
    }

    /// A terminal that restarts, and its pair where a takeover of that is pending.
    fn push_restarted(&self, actors: &mut Vec<Actor>, terminal: u32) -> Result<(), Memory>
        requires { terminal < length self.now.keep.system.terminals }
        ensures { (unit : ℕ) (cause : SeenCause) → OnOk result (actors.new.items
            ≡ actors.old.items ++ named self.now.keep.system (kept_in D.told self.now.keep)
            (event.Restart terminal unit cause)) }
    {
        match self.keep.seat(terminal).pending {
            Some(Cause::Takeover(_)) => push_member(self.keep.system(), actors, terminal),
            _ => push_terminal(actors, terminal),
        }
    }

    /// Where the requests are that an entry cancels.
    fn push_cancelled(&self, actors: &mut Vec<Actor>, entry: &Event) -> Result<(), Memory>
        requires { IsThere self.now.keep.system entry.now }
        ensures { OnOk result (Grows self.now.keep.system
            (cancels_at self.now.keep.system (kept_in D.told self.now.keep) entry.now)
            actors.old.items actors.new.items) }
    {
        match *entry {
            Event::Restart { terminal, .. } => self.push_request(actors, terminal),
            Event::FailTcp { tcp, primary, .. } => self.push_lost(actors, tcp, primary),
            Event::End { terminal, ending } => self.push_left(actors, terminal, ending),
            _ => Ok(()),
        }
    }

    /// Where the requests of a pair are, of which a member fails.
    fn push_lost(&self, actors: &mut Vec<Actor>, tcp: u32, primary: bool) -> Result<(), Memory>
        requires { tcp < length self.now.keep.system.tcps }
        ensures { (line : ℕ) → OnOk result (Grows self.now.keep.system
            (cancels_at self.now.keep.system (kept_in D.told self.now.keep)
            (event.FailTcp tcp primary line))
            actors.old.items actors.new.items) }
    {
        let pair = self.keep.pair(tcp);
        if loses(primary, pair.mode()) {
            self.push_requests(actors, pair.seats())
        } else {
            Ok(())
        }
    }

    /// Where the request of a terminal is that ends, where its ending leaves an open unit.
    fn push_left(
        &self,
        actors: &mut Vec<Actor>,
        terminal: u32,
        ending: Ending,
    ) -> Result<(), Memory>
        ensures { OnOk result (Grows self.now.keep.system
            (cancels_at self.now.keep.system (kept_in D.told self.now.keep) (event.End terminal ending))
            actors.old.items actors.new.items) }
    {
        if leaves(ending) {
            self.push_request(actors, terminal)
        } else {
            Ok(())
        }
    }

    /// Where the requests of terminals are.
    fn push_requests(&self, actors: &mut Vec<Actor>, seats: &[BackupSeat]) -> Result<(), Memory>
        ensures { OnOk result (Grows self.now.keep.system
            (λ one. list_any (λ t. asks_at (kept_in D.told self.now.keep) t one)
            (map (λ seat. seat.terminal) seats.now))
            actors.old.items actors.new.items) }
    {
        for seat in seats {
            self.push_request(actors, seat.terminal)?;
        }
        Ok(())
    }

    /// Where the request of a terminal is.
    fn push_request(&self, actors: &mut Vec<Actor>, terminal: u32) -> Result<(), Memory>
        ensures { OnOk result (Grows self.now.keep.system
            (asks_at (kept_in D.told self.now.keep) terminal) actors.old.items actors.new.items) }
    {
        self.keep.known_parts();
        match self.keep.request_of(terminal) {
            Some(RequestPlace::Waiting { class }) => Ok(actors.push(Actor::Class(class))?),
            Some(RequestPlace::Busy { class, process }) => push_process(actors, class, process),
            None => Ok(()),
        }
    }
}

/// A terminal.
fn push_terminal(actors: &mut Vec<Actor>, terminal: u32) -> Result<(), Memory>
    ensures { OnOk result (actors.new.items ≡ actors.old.items ++ actor.Terminal terminal ∷ []) }
{
    Ok(actors.push(Actor::Terminal(terminal))?)
}

/// A terminal, and its pair.
fn push_member(system: &System, actors: &mut Vec<Actor>, terminal: u32) -> Result<(), Memory>
    ensures { OnOk result (actors.new.items ≡ actors.old.items ++ member system.now terminal) }
{
    actors.push(Actor::Terminal(terminal))?;
    Ok(actors.push(Actor::Pair(tcp_of(system, terminal)))?)
}

/// A terminal, and the class to which it sends.
fn push_sender(actors: &mut Vec<Actor>, terminal: u32, class: u32) -> Result<(), Memory>
    ensures { OnOk result (actors.new.items
        ≡ actors.old.items ++ actor.Terminal terminal ∷ actor.Class class ∷ []) }
{
    actors.push(Actor::Terminal(terminal))?;
    Ok(actors.push(Actor::Class(class))?)
}

/// A process, and its class.
fn push_process(actors: &mut Vec<Actor>, class: u32, process: u32) -> Result<(), Memory>
    ensures { OnOk result (actors.new.items
        ≡ actors.old.items ++ actor.Process class process ∷ actor.Class class ∷ []) }
{
    actors.push(Actor::Process { class, process })?;
    Ok(actors.push(Actor::Class(class))?)
}

/// A terminal, the process that works for it, and its class.
fn push_post(actors: &mut Vec<Actor>, class: u32, process: u32, terminal: u32) -> Result<(), Memory>
    ensures { OnOk result (actors.new.items ≡ actors.old.items
        ++ actor.Terminal terminal ∷ actor.Process class process ∷ actor.Class class ∷ []) }
{
    actors.push(Actor::Terminal(terminal))?;
    push_process(actors, class, process)
}

/// Whether the failure of a member cancels the requests of its pair's terminals.
fn loses(primary: bool, mode: Mode) -> bool
    ensures { result ≡ loses primary mode }
{
    match mode {
        Mode::Paired | Mode::Raising | Mode::Alone => primary,
        Mode::Down => !primary,
        Mode::Gone => false,
    }
}

/// Whether an ending leaves an open unit.
fn leaves(ending: Ending) -> bool
    ensures { result ≡ leaves ending }
{
    !matches!(ending, Ending::Stopped | Ending::Lost)
}
