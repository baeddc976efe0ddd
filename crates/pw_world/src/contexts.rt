//! The contexts that are kept for actors, and how they run on.

ghost use Rattle.std.specs.Prelude.{◌≡◌};
ghost use Rattle.std.specs.Option.{option_copied};
ghost use Rattle.pw_world.specs.States.{seen};
ghost use Rattle.pw_world_model.specs.Actors.{IsActor};
ghost use Rattle.pw_world_model.specs.Seen.{kept_context, work_of};

use crate::world::World;
use pw_actor_queue::actor::Actor;
use pw_code::context::Context;
use pw_tmf::disc::Disc;

impl<D: Disc> World<D> {
    /// The context that is kept for an actor: pairs and classes have none.
    pub(crate) fn context_of(&self, actor: Actor) -> Option<&Context>
        requires { IsActor self.now.keep.system actor }
        ensures { option_copied result ≡ kept_context (seen D.told self.now).kept actor }
    {
        match actor {
            Actor::Terminal(terminal) => {
                let seat = self.keep.seat(terminal);
                match &seat.ready {
                    Some(ready) => Some(&ready.context),
                    None => seat.context.as_ref(),
                }
            }
            Actor::Process { class, process } => {
                let job = self.keep.job(class, process)?;
                Some(&job.context)
            }
            Actor::Pair(_) | Actor::Class(_) => None,
        }
    }

    /// The context that is kept for an actor, where it stands at an answer.
    pub(crate) fn unread(&self, actor: Actor) -> Option<&Context>
        requires { IsActor self.now.keep.system actor }
        ensures { option_copied result ≡ work_of (seen D.told self.now) actor }
    {
        match self.context_of(actor) {
            Some(context) if !context.at_verb => Some(context),
            _ => None,
        }
    }
}
