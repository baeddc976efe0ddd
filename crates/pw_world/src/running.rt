//! Programs run on to their next verbs.

ghost use Rattle.std.specs.Prelude.{◌≡◌, None, OnOk, Some, true};
ghost use Rattle.pw_world_store.specs.Keeps.{IsChanged, kept_in};
ghost use Rattle.pw_world_state.specs.Asked.{verb_in};
ghost use Rattle.pw_world.specs.Running.{HasProgram, HasRunOn, RunsTo, ran_to};
ghost use Rattle.pw_world.specs.States.{seen};
ghost use Rattle.pw_world_model.specs.Actors.{IsActor};
ghost use Rattle.pw_world_model.specs.Answers.{run_on};
ghost use Rattle.pw_world_model.specs.Seen.{work_of};

use crate::world::World;
use pw_actor_queue::actor::Actor;
use pw_base::memory::Memory;
use pw_code::context::Context;
use pw_code::verb::Verb;
use pw_machine::run::verb;
use pw_tmf::disc::Disc;
use pw_world_store::keep::Keep;

impl<D: Disc> World<D> {
    /// The program of an actor stands at its next verb, to which it runs on where it stands at an
    /// answer. An `Err` leaves the world as it was.
    pub(crate) fn read(&mut self, actor: Actor) -> Result<(), Memory>
        requires { IsActor self.old.keep.system actor }
        ensures ran { HasRunOn (seen D.told self.old) (seen D.told self.new) }
        ensures read { OnOk result (work_of (seen D.told self.new) actor ≡ None) }
    {
        let Some(context) = self.unread(actor) else {
            return Ok(());
        };
        let mut work = context.duplicate()?;
        let verb = verb(self.keep.system(), &mut work)?;
        self.run_to(actor, verb, work);
        Ok(())
    }

    /// The kept context of an actor, which stood at an answer, has run on to its next verb.
    pub(crate) fn run_to(&mut self, actor: Actor, verb: Verb, work: Context)
        requires actor { IsActor self.old.keep.system actor }
        requires runs { RunsTo (seen D.told self.old) actor verb work }
        ensures ran { seen D.told self.new ≡ ran_to actor work (seen D.told self.old) }
        ensures read { work_of (seen D.told self.new) actor ≡ None }
    {
        self.ledger.mark_all();
        set_ready(&mut self.keep, actor, verb, work);
    }
}

/// The context that is kept for an actor is one at this verb from now on.
pub fn set_ready<D: Disc>(keep: &mut Keep<D>, actor: Actor, verb: Verb, work: Context)
    requires program { HasProgram keep.old.system (kept_in D.told keep.old) actor }
    requires verb { verb ≡ verb_in keep.old.system work }
    requires stands { work.at_verb ≡ true }
    ensures { IsChanged D.told (run_on actor (Some work)) keep.old keep.new }
{
    match actor {
        Actor::Terminal(terminal) => keep.run_on(terminal, verb, work),
        Actor::Process { class, process } => keep.run_job_on(class, process, verb, work),
        Actor::Pair(_) | Actor::Class(_) => unreachable!(),
    }
}
