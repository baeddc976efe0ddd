//! A kept context that has run on is put back.

ghost use Rattle.std.specs.Prelude.{◌≡◌, false};
ghost use Rattle.pw_world_store.specs.Keeps.{IsChanged, kept_in};
ghost use Rattle.pw_world.specs.PutBack.{IsSpare, RanFrom, put_back, ran_back};
ghost use Rattle.pw_world.specs.Running.{HasProgram};
ghost use Rattle.pw_world.specs.States.{seen};
ghost use Rattle.pw_world_model.specs.Actors.{IsActor};
ghost use Rattle.pw_world_model.specs.Seen.{Seen};
ghost use Rattle.pw_actor_queue.specs.declared.actor.Actor.TheVariants as actor;

use crate::world::World;
use pw_actor_queue::actor::Actor;
use pw_code::context::Context;
use pw_tmf::disc::Disc;
use pw_world_store::keep::Keep;

impl<D: Disc> World<D> {
    /// The kept context of an actor, which has run on, is the one from which it ran again.
    pub(crate) fn run_back(&mut self, actor: Actor, given: Context)
        requires actor { IsActor self.old.keep.system actor }
        requires ran { (before : Seen) × RanFrom before (seen D.told self.old) actor given }
        ensures { seen D.told self.new ≡ ran_back actor given (seen D.told self.old) }
    {
        self.ledger.mark_all();
        put_back(&mut self.keep, actor, given);
    }

    /// The kept context of an actor, which has run on in its place, is the one from which it ran again: a terminal keeps that
    /// itself, and of any other a copy is spare.
    pub(crate) fn go_back(&mut self, actor: Actor, spare: Option<Context>)
        requires actor { IsActor self.old.keep.system actor }
        requires ran { (given : Context) × (((before : Seen) × RanFrom before (seen D.told self.old) actor given)
            × IsSpare actor given spare) }
        ensures { (given : Context) → ((before : Seen) × RanFrom before (seen D.told self.old) actor given)
            → IsSpare actor given spare → seen D.told self.new ≡ ran_back actor given (seen D.told self.old) }
    {
        match spare {
            Some(given) => self.run_back(actor, given),
            None => match actor {
                Actor::Terminal(terminal) => self.leave_verb(terminal),
                _ => unreachable!(),
            },
        }
    }

    /// The program of a terminal, which has run on, stands at its last answer again.
    fn leave_verb(&mut self, terminal: u32)
        requires actor { IsActor self.old.keep.system (actor.Terminal terminal) }
        requires ran { (given : Context) × ((before : Seen) × RanFrom before (seen D.told self.old) (actor.Terminal terminal) given) }
        ensures { (given : Context) → ((before : Seen) × RanFrom before (seen D.told self.old) (actor.Terminal terminal) given)
            → seen D.told self.new ≡ ran_back (actor.Terminal terminal) given (seen D.told self.old) }
    {
        self.ledger.mark_all();
        let _left = self.keep.leave_verb(terminal);
    }
}

/// The context that is kept for an actor is this one, which stands at an answer.
fn put_back<D: Disc>(keep: &mut Keep<D>, actor: Actor, given: Context)
    requires program { HasProgram keep.old.system (kept_in D.told keep.old) actor }
    requires answer { given.at_verb ≡ false }
    ensures { IsChanged D.told (put_back actor given) keep.old keep.new }
{
    match actor {
        Actor::Terminal(terminal) => keep.answer(terminal, given),
        Actor::Process { class, process } => keep.answer_job(class, process, given),
        Actor::Pair(_) | Actor::Class(_) => unreachable!(),
    }
}
