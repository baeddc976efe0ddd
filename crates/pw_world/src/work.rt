//! `work`: a task is claimed, run on and applied in one call.

ghost use Rattle.std.specs.Prelude.{◌≡◌, IfOk, None, OnErr, Some, false};
ghost use Rattle.pw_world.specs.PutBack.{IsSpare};
ghost use Rattle.pw_world.specs.States.{seen};
ghost use Rattle.pw_world.specs.Working.{StopsWork, WorksFor};
ghost use Rattle.pw_world_model.specs.Actors.{IsActor};
ghost use Rattle.pw_world_model.specs.Answers.{IsFull};
ghost use Rattle.pw_world_model.specs.Seen.{finished, work_of};
ghost use Rattle.pw_world_model.specs.Working.{Works, WorksOn};
ghost use Rattle.pw_world_state.specs.Members.{members_of};

use crate::actors::is_actor;
use crate::apply::leaves_work;
use crate::world::World;
use pw_actor_queue::actor::Actor;
use pw_base::memory::Memory;
use pw_code::context::Context;
use pw_code::copies::Duplicate;
use pw_machine::run::verb;
use pw_tmf::disc::Disc;
use pw_world_model::answers::{Applied, Worked};
use pw_world_model::contexts::context_laws;

impl<D: Disc> World<D> {
    /// Makes a step of an actor that is not out and may work: its program runs on here, where it stands at an answer
    /// (docs/design/ARCHITECTURE.md). No other actor is out any longer or shorter for it.
    ///
    /// Every answer but that of a task leaves the world as it was.
    pub fn work(&mut self) -> Worked
        ensures works { Works (members_of self.old.keep.system) (seen D.told self.old) result (seen D.told self.new) }
    {
        if let Some(answer) = self.no_work() {
            return answer;
        }
        while let Some(actor) = self.next() {
            match self.work_for(actor) {
                Ok(Some(answer)) => {
                    self.call_again(answer, actor);
                    return Worked::Applied(answer);
                }
                Ok(None) => {
                    self.unmark(actor);
                    self.call_for(actor);
                }
                Err(Memory) => return Worked::Memory,
            }
        }
        Worked::Idle
    }

    /// What is answered before anyone is looked for: that the log is finished, that a fault of the disc was answered, or
    /// that there is no room.
    fn no_work(&self) -> Option<Worked>
        ensures { StopsWork (seen D.told self.now) result }
    {
        if self.finished() {
            return Some(Worked::Finished);
        }
        if self.failed {
            return Some(Worked::DiscFault);
        }
        if self.is_full() {
            return Some(Worked::Limit);
        }
        None
    }

    /// Makes a step of an actor that is not out, None exactly where it may not work.
    fn work_for(&mut self, actor: Actor) -> Result<Option<Applied>, Memory>
        requires inside { (seen D.told self.old).out actor ≡ false }
        requires unfinished { finished (seen D.told self.old) ≡ false }
        requires sound { self.old.failed ≡ false }
        requires room { ¬ IsFull (seen D.told self.old) }
        ensures works { IfOk result (WorksFor (members_of self.old.keep.system) (seen D.told self.old) actor
            (seen D.told self.new)) }
        ensures idle { IfOk result (λ answer. answer ≡ None → self.new ≡ self.old) }
        ensures spent { OnErr result (self.new ≡ self.old) }
    {
        if !is_actor(self.keep.system(), actor) {
            return Ok(None);
        }
        let Some(context) = self.unread(actor) else {
            return self.step_for(actor);
        };
        let work = context.duplicate()?;
        let spare = spare_of(actor, &work)?;
        let answer = self.run_for(actor, work, spare)?;
        Ok(Some(answer))
    }

    /// Makes a step of an actor that has been read, None exactly where it has none.
    fn step_for(&mut self, actor: Actor) -> Result<Option<Applied>, Memory>
        requires actor { IsActor self.old.keep.system actor }
        requires inside { (seen D.told self.old).out actor ≡ false }
        requires unfinished { finished (seen D.told self.old) ≡ false }
        requires sound { self.old.failed ≡ false }
        requires room { ¬ IsFull (seen D.told self.old) }
        requires read { work_of (seen D.told self.old) actor ≡ None }
        ensures works { IfOk result (WorksFor (members_of self.old.keep.system) (seen D.told self.old) actor
            (seen D.told self.new)) }
        ensures idle { IfOk result (λ answer. answer ≡ None → self.new ≡ self.old) }
        ensures spent { OnErr result (self.new ≡ self.old) }
    {
        self.holds();
        match self.step_of(actor)? {
            Some(entry) => Ok(Some(self.enter_step(&entry))),
            None => Ok(None),
        }
    }

    /// Runs the program of an actor on from its kept context, of which this is a copy, and makes a step of it.
    fn run_for(
        &mut self,
        actor: Actor,
        mut work: Context,
        spare: Option<Context>,
    ) -> Result<Applied, Memory>
        requires actor { IsActor self.old.keep.system actor }
        requires inside { (seen D.told self.old).out actor ≡ false }
        requires sound { self.old.failed ≡ false }
        requires room { ¬ IsFull (seen D.told self.old) }
        requires given { work_of (seen D.told self.old) actor ≡ Some work }
        requires spare { IsSpare actor work spare }
        ensures works { IfOk result (λ answer. WorksOn (members_of self.old.keep.system) (seen D.told self.old)
            answer (seen D.told self.new)) }
        ensures spent { OnErr result (self.new ≡ self.old) }
    {
        self.holds();
        context_laws();
        let verb = verb(self.system(), &mut work)?;
        self.run_to(actor, verb, work);
        let answer = self.make_step(actor);
        if leaves_work(answer) {
            self.go_back(actor, spare);
        }
        Ok(answer)
    }
}

/// A copy of the context from which an actor's program runs on, but for a terminal, which keeps that itself.
fn spare_of(actor: Actor, work: &Context) -> Result<Option<Context>, Memory>
    ensures { IfOk result (IsSpare actor work.now) }
{
    match actor {
        Actor::Terminal(_) => Ok(None),
        _ => Ok(Some(work.duplicate()?)),
    }
}
