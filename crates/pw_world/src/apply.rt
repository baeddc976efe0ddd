//! `apply`: a step of the actor of an outcome.

ghost use Rattle.std.specs.Prelude.{◌≡◌, None, false, true};
ghost use Rattle.std.specs.Option.{ForSome};
ghost use Rattle.pw_world.specs.Applying.{Advances, StepsTo};
ghost use Rattle.pw_world.specs.Found.{IsFound};
ghost use Rattle.pw_world.specs.Judging.{PassesJudging};
ghost use Rattle.pw_world.specs.PutBack.{RanFrom, leaves_work, put_back_for};
ghost use Rattle.pw_world.specs.States.{seen};
ghost use Rattle.pw_world_model.specs.Actors.{IsActor};
ghost use Rattle.pw_world_state.specs.Members.{members_of};
ghost use Rattle.pw_world_model.specs.Answers.{AnswersApply, IsFull, LeavesApplied, ran, with_out};
ghost use Rattle.pw_world_model.specs.Seen.{Seen, work_of};
ghost use Rattle.pw_actor_queue.specs.Places.{is_placed};
ghost use Rattle.pw_actor_queue.specs.declared.actor.Actor.{Actor as SeenActor};

use crate::world::World;
use pw_actor_queue::actor::Actor;
use pw_code::context::Context;
use pw_event::event::Event;
use pw_tmf::answer::DiscFault;
use pw_tmf::disc::Disc;
use pw_world_model::answers::Applied;
use pw_world_model::task::Outcome;

impl<D: Disc> World<D> {
    /// Makes a step of the outcome's actor, which is no more out then, whatever the answer.
    ///
    /// It runs no program: the outcome has to be one of the context that is kept for the actor. Every
    /// answer but `Done` leaves the log, the stamps and the paired state as they were.
    pub fn apply(&mut self, outcome: Outcome) -> Applied
        requires system { outcome.over.value ≡ self.old.keep.system }
        requires actor { IsActor self.old.keep.system outcome.actor }
        ensures comes { AnswersApply (seen D.told self.old) outcome result }
        ensures leaves { LeavesApplied (members_of self.old.keep.system) (seen D.told self.old) outcome
            result (seen D.told self.new) }
    {
        let actor = outcome.actor;
        let answer = self.answer_to(outcome);
        self.set_out(actor, false);
        self.call_again(answer, actor);
        answer
    }

    /// Makes a step of the outcome's actor, if the outcome passes.
    fn answer_to(&mut self, outcome: Outcome) -> Applied
        requires system { outcome.over.value ≡ self.old.keep.system }
        requires actor { IsActor self.old.keep.system outcome.actor }
        ensures comes { AnswersApply (seen D.told self.old) outcome result }
        ensures leaves { LeavesApplied (members_of self.old.keep.system) (seen D.told self.old) outcome
            result (with_out outcome.actor false (seen D.told self.new)) }
        ensures placed { is_placed outcome.actor ≡ true }
    {
        self.holds();
        match self.refusal(&outcome) {
            Some(answer) => answer,
            None => self.advance(outcome),
        }
    }

    /// Runs the actor's context on to the outcome's verb, and makes a step of it.
    fn advance(&mut self, outcome: Outcome) -> Applied
        requires system { outcome.over.value ≡ self.old.keep.system }
        requires actor { IsActor self.old.keep.system outcome.actor }
        requires passes { PassesJudging (seen D.told self.old) outcome }
        ensures comes { AnswersApply (seen D.told self.old) outcome result }
        ensures leaves { Advances (members_of self.old.keep.system) (seen D.told self.old) outcome
            result (seen D.told self.new) }
    {
        let actor = outcome.actor;
        let given = self.run_on(outcome);
        let answer = self.make_step(actor);
        self.run_back_for(answer, actor, given);
        answer
    }

    /// The actor's context stands at the outcome's verb, where it stood at an answer before: that
    /// context.
    fn run_on(&mut self, outcome: Outcome) -> Option<Context>
        requires system { outcome.over.value ≡ self.old.keep.system }
        requires actor { IsActor self.old.keep.system outcome.actor }
        requires passes { PassesJudging (seen D.told self.old) outcome }
        ensures given { result ≡ work_of (seen D.told self.old) outcome.actor }
        ensures ran { seen D.told self.new ≡ ran (seen D.told self.old) outcome }
        ensures read { work_of (seen D.told self.new) outcome.actor ≡ None }
        ensures back { ForSome result
            (RanFrom (seen D.told self.old) (seen D.told self.new) outcome.actor) }
    {
        self.holds();
        let actor = outcome.actor;
        self.unread(actor)?;
        let (Some(given), Some(verb), Some(work)) = (outcome.given, outcome.verb, outcome.work)
        else {
            unreachable!()
        };
        self.run_to(actor, verb, work);
        Some(given)
    }

    /// The actor's context stands at its last answer again, where it has run on and the answer leaves
    /// it as it was.
    pub(crate) fn run_back_for(&mut self, answer: Applied, actor: Actor, given: Option<Context>)
        requires actor { IsActor self.old.keep.system actor }
        requires ran { leaves_work answer ≡ true → ForSome given
            (λ context. (before : Seen) × RanFrom before (seen D.told self.old) actor context) }
        ensures { seen D.told self.new ≡ put_back_for answer actor given (seen D.told self.old) }
    {
        let Some(given) = given else {
            return;
        };
        if leaves_work(answer) {
            self.run_back(actor, given);
        }
    }

    /// Makes a step of an actor that has been read.
    pub(crate) fn make_step(&mut self, actor: Actor) -> Applied
        requires actor { IsActor self.old.keep.system actor }
        requires sound { self.old.failed ≡ false }
        requires room { ¬ IsFull (seen D.told self.old) }
        requires read { work_of (seen D.told self.old) actor ≡ None }
        ensures { StepsTo (members_of self.old.keep.system) (seen D.told self.old) actor result
            (seen D.told self.new) }
    {
        self.holds();
        if self.finished() {
            return Applied::Held;
        }
        let entry = match self.step_of(actor) {
            Ok(Some(entry)) => entry,
            Ok(None) => return Applied::Held,
            Err(_) => return Applied::Memory,
        };
        self.enter_step(&entry)
    }

    /// Enters an entry that was found for an actor, unless it is an APPLIED whose message is not built.
    pub(crate) fn enter_step(&mut self, entry: &Event) -> Applied
        requires sound { self.old.failed ≡ false }
        requires room { ¬ IsFull (seen D.told self.old) }
        requires found { (actor : SeenActor) × IsFound (seen D.told self.old) actor entry.now }
        ensures { (actor : SeenActor) → IsFound (seen D.told self.old) actor entry.now
            → StepsTo (members_of self.old.keep.system) (seen D.told self.old) actor result
            (seen D.told self.new) }
    {
        self.holds();
        if self.is_unbuilt(entry) {
            return Applied::Unbuilt;
        }
        self.know_entry(entry);
        match self.push(entry) {
            Ok(()) => Applied::Done,
            Err(DiscFault::Failed) => Applied::DiscFault,
            Err(DiscFault::Memory) => Applied::Memory,
        }
    }
}

/// Whether an answer leaves the kept context of its actor as it was.
pub(crate) fn leaves_work(answer: Applied) -> bool
    ensures { result ≡ leaves_work answer }
{
    matches!(
        answer,
        Applied::Unbuilt | Applied::DiscFault | Applied::Memory
    )
}
