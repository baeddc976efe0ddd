//! `claim`: the task of an actor that may work.

ghost use Rattle.std.specs.Prelude.{◌≡◌, ◌<◌, IfOk, Ok, false, true};
ghost use Rattle.std.specs.Option.{ForSome};
ghost use Rattle.pw_code_meaning.specs.Sound.{IsSoundContext};
ghost use Rattle.pw_world.specs.Found.{FindsTask, IsNextOf};
ghost use Rattle.pw_world.specs.States.{seen};
ghost use Rattle.pw_world_model.specs.Actors.{IsActor};
ghost use Rattle.pw_world_model.specs.Answers.{Claims, with_out};
ghost use Rattle.pw_world_model.specs.Enabled.{MayWork};
ghost use Rattle.pw_world_model.specs.Seen.{finished};
ghost use Rattle.pw_world_model.specs.declared.answers.Claim.TheVariants as claim;
ghost use Rattle.pw_world_model.specs.declared.task.Task.{Task as SeenTask};
ghost use Rattle.pw_actor_queue.specs.Places.{is_placed, is_waiting, notes_in, waiting};

use crate::actors::is_actor;
use crate::world::World;
use pw_actor_queue::actor::Actor;
use pw_base::memory::Memory;
use pw_tmf::disc::Disc;
use pw_world_model::answers::Claim;
use pw_world_model::contexts::context_laws;
use pw_world_model::stepping::idle_laws;
use pw_world_model::task::Task;

impl<D: Disc> World<D> {
    /// Hands out the task of an actor that may work, and that is out from now on. An `Err` leaves the
    /// world as it was.
    pub fn claim(&mut self) -> Result<Claim, Memory>
        ensures claims { Claims (seen D.told self.old) result (seen D.told self.new) }
        ensures sound { (task : SeenTask) → result ≡ Ok (claim.Work task)
            → ForSome task.work (IsSoundContext self.old.keep.system) }
    {
        if self.finished() {
            return Ok(Claim::Finished);
        }
        while let Some(actor) = self.next() {
            if let Some(task) = self.task_of(actor)? {
                self.set_out(actor, true);
                return Ok(Claim::Work(task));
            }
            self.unmark(actor);
            self.call_for(actor);
        }
        Ok(Claim::Idle)
    }

    /// An actor that is looked at for work and not out, None only where each actor that may work is
    /// out.
    pub(crate) fn next(&mut self) -> Option<Actor>
        requires { finished (seen D.told self.old) ≡ false }
        ensures next { IsNextOf (seen D.told self.old) self.old.ledger.notes result }
        ensures same { self.new ≡ self.old }
    {
        idle_laws();
        self.ledger.next()
    }

    /// The task of an actor, None exactly where it may not work.
    fn task_of(&self, actor: Actor) -> Result<Option<Task>, Memory>
        requires placed { is_placed actor ≡ true }
        requires unfinished { finished (seen D.told self.now) ≡ false }
        ensures { IfOk result (FindsTask (seen D.told self.now) actor) }
    {
        context_laws();
        if !is_actor(self.keep.system(), actor) {
            return Ok(None);
        }
        let stamp = self.ledger.note(actor).stamp;
        if let Some(context) = self.unread(actor) {
            let work = Some(context.duplicate()?);
            return Ok(Some(Task { actor, stamp, work }));
        }
        match self.step_of(actor)? {
            Some(_) => Ok(Some(Task {
                actor,
                stamp,
                work: None,
            })),
            None => Ok(None),
        }
    }

    /// The actor is out from now on, or no more.
    pub(crate) fn set_out(&mut self, actor: Actor, out: bool)
        requires { is_placed actor ≡ true }
        ensures { seen D.told self.new ≡ with_out actor out (seen D.told self.old) }
    {
        self.ledger.set_out(actor, out);
    }

    /// An actor that may not work is looked at no more.
    pub(crate) fn unmark(&mut self, actor: Actor)
        requires placed { is_placed actor ≡ true }
        requires idle { IsActor self.old.keep.system actor → ¬ MayWork (seen D.told self.old) actor }
        ensures seen { seen D.told self.new ≡ seen D.told self.old }
        ensures fewer { is_waiting (notes_in self.old.ledger.notes actor) ≡ true
            → waiting self.new.ledger.notes < waiting self.old.ledger.notes }
    {
        self.ledger.unmark(actor);
    }
}
