//! The steps of an actor.

ghost use Rattle.std.specs.Prelude.{◌≡◌, ◌↔◌, ◌<◌, IfOk, IsTrue, None, Some, false, length};
ghost use Rattle.pw_world_store.specs.Keeps.{kept_in};
ghost use Rattle.pw_world_state.specs.May.{IsThere};
ghost use Rattle.pw_world_state.specs.TerminalTests.{seat_at};
ghost use Rattle.pw_world.specs.Found.{FindsStep};
ghost use Rattle.pw_world.specs.Owners.{owner_in};
ghost use Rattle.pw_world.specs.States.{seen};
ghost use Rattle.pw_world_model.specs.Actors.{IsActor};
ghost use Rattle.pw_world_model.specs.Dues.{due_in};
ghost use Rattle.pw_world_model.specs.Seen.{finished, work_of};
ghost use Rattle.pw_pair.specs.Pairs.{passes};
ghost use Rattle.pw_pair.specs.Seats.{is_waiting};
ghost use Rattle.pw_entry_tests.specs.Steps.{IsUnbuilt};

use crate::actors::{owner_of_actor, tcp_of};
use crate::fails::fail_entry;
use crate::world::World;
use pw_actor_queue::actor::Actor;
use pw_base::memory::Memory;
use pw_entry_tests::step::step;
use pw_event::event::Event;
use pw_tmf::disc::Disc;

impl<D: Disc> World<D> {
    /// A step of an actor that has been read, None exactly where it has none.
    pub(crate) fn step_of(&self, actor: Actor) -> Result<Option<Event>, Memory>
        requires actor { IsActor self.now.keep.system actor }
        requires unfinished { finished (seen D.told self.now) ≡ false }
        requires read { work_of (seen D.told self.now) actor ≡ None }
        ensures { IfOk result (FindsStep (seen D.told self.now) actor) }
    {
        match self.ledger.due(owner_of_actor(self.keep.system(), actor)) {
            Some(number) => Ok(self.fail_of(actor, number)),
            None => self.plain_step(actor),
        }
    }

    /// The step of an actor while this failure line is due for its entries.
    fn fail_of(&self, actor: Actor, number: u32) -> Option<Event>
        requires unfinished { finished (seen D.told self.now) ≡ false }
        requires due { due_in self.now.ledger.due (owner_in self.now.keep.system actor) ≡ Some number }
        ensures { FindsStep (seen D.told self.now) actor result }
    {
        fail_entry(&self.script, number, actor)
    }

    /// A step of an actor while no failure line is due for its entries.
    fn plain_step(&self, actor: Actor) -> Result<Option<Event>, Memory>
        requires actor { IsActor self.now.keep.system actor }
        requires unfinished { finished (seen D.told self.now) ≡ false }
        requires read { work_of (seen D.told self.now) actor ≡ None }
        requires undue { due_in self.now.ledger.due (owner_in self.now.keep.system actor) ≡ None }
        ensures { IfOk result (FindsStep (seen D.told self.now) actor) }
    {
        self.keep.known_parts();
        self.know_actor(actor);
        step(&self.keep, actor)
    }

    /// Whether an entry is an APPLIED whose message is not built.
    pub(crate) fn is_unbuilt(&self, entry: &Event) -> bool
        requires { IsThere self.now.keep.system entry.now }
        ensures { IsTrue result ↔ IsUnbuilt self.now.keep.system (kept_in D.told self.now.keep) entry.now }
    {
        match *entry {
            Event::Applied { terminal } => self.waits_for_image(terminal),
            _ => false,
        }
    }

    /// Whether a message of a terminal is in flight that is not built.
    fn waits_for_image(&self, terminal: u32) -> bool
        requires { terminal < length self.now.keep.system.terminals }
        ensures { result ≡ passes is_waiting
            (seat_at self.now.keep.system (kept_in D.told self.now.keep) terminal) }
    {
        let tcp = tcp_of(self.keep.system(), terminal);
        self.keep.pair(tcp).is_waiting(terminal)
    }
}
