//! The images of messages in flight, which are built outside the world.

ghost use Rattle.std.specs.Prelude.{◌≡◌, ◌<◌, ◌==◌, IfOk, IfSome, OnErr, find, length, true};
ghost use Rattle.std.specs.List.{IsDistinct};
ghost use Rattle.std.specs.Option.{option_map};
ghost use Rattle.pw_world_store.specs.Keeps.{kept_in, terminals_in};
ghost use Rattle.pw_world.specs.States.{seen};
ghost use Rattle.pw_world_model.specs.Calls.{BuildsHere, GivesBack, lent};
ghost use Rattle.pw_pair.specs.Pairs.{passes, seat_of};
ghost use Rattle.pw_pair.specs.Seats.{is_waiting};

use crate::actors::{is_actor, tcp_of};
use crate::world::World;
use pw_actor_queue::actor::Actor;
use pw_base::memory::Memory;
use pw_pair::link::{LinkDone, LinkTask};
use pw_pair::pair::Pair;
use pw_tmf::disc::Disc;

impl<D: Disc> World<D> {
    /// The task of the pair's first terminal whose message is in flight and not built, None exactly
    /// where there is none.
    pub fn lend(&self, tcp: u32) -> Result<Option<LinkTask>, Memory>
        requires { tcp < length self.now.keep.system.tcps }
        ensures { IfOk result (λ task. task ≡ lent ((kept_in D.told self.now.keep).pairs tcp)) }
    {
        first_task(self.keep.pair(tcp))
    }

    /// Files the image of a task that is done, and says whether it did: exactly where the message in
    /// flight and the start image that is held are those of the task, and it is not built.
    pub fn give_back(&mut self, done: LinkDone) -> bool
        ensures { GivesBack (seen D.told self.old) done result (seen D.told self.new) }
    {
        let system = self.keep.system();
        let tcp = tcp_of(system, done.terminal());
        if !is_actor(system, Actor::Pair(tcp)) {
            self.keep.known_parts();
            return false;
        }
        let filed = self.keep.give_back(tcp, done);
        self.ledger.wake(Actor::Pair(tcp));
        filed
    }

    /// Builds the image of the pair's first terminal whose message is in flight and not built, in its place, and says
    /// whether there was one: what `lend`, the build of that task and `give_back` come to. An `Err` leaves the world as it
    /// was.
    pub fn build_first(&mut self, tcp: u32) -> Result<bool, Memory>
        requires { tcp < length self.old.keep.system.tcps }
        ensures built { IfOk result (λ built. BuildsHere (seen D.told self.old) tcp built (seen D.told self.new)) }
        ensures err { OnErr result (seen D.told self.new ≡ seen D.told self.old) }
    {
        let Some(terminal) = first_terminal(self.keep.pair(tcp)) else {
            return Ok(false);
        };
        self.keep.build_here(tcp, terminal)?;
        self.ledger.wake(Actor::Pair(tcp));
        Ok(true)
    }
}

/// A pair's first terminal whose message is in flight and not built.
fn first_terminal(pair: &Pair) -> Option<u32>
    requires { IsDistinct (λ a b. a == b) (terminals_in pair.now) }
    ensures first { result ≡ option_map (λ seat. seat.terminal) (find is_waiting pair.now.seats) }
    ensures waits { IfSome result (λ terminal. passes is_waiting (seat_of terminal pair.now) ≡ true) }
{
    match pair.first_waiting() {
        Some(seat) => Some(seat.terminal),
        None => None,
    }
}

/// The task of a pair's first terminal whose message is in flight and not built.
fn first_task(pair: &Pair) -> Result<Option<LinkTask>, Memory>
    requires { IsDistinct (λ a b. a == b) (terminals_in pair.now) }
    ensures { IfOk result (λ task. task ≡ lent pair.now) }
{
    match pair.first_waiting() {
        Some(seat) => Ok(Some(pair.lend(seat.terminal)?)),
        None => Ok(None),
    }
}
