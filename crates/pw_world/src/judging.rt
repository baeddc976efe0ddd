//! Which outcomes pass.

ghost use Rattle.std.specs.Prelude.{◌≡◌, ◌↔◌, IsTrue, false};
ghost use Rattle.pw_world.specs.Judging.{IsOfWork, Judges};
ghost use Rattle.pw_world.specs.States.{seen};
ghost use Rattle.pw_world_model.specs.Actors.{IsActor};
ghost use Rattle.pw_world_model.specs.Answers.{IsFull, IsUnrun};

use crate::world::World;
use pw_tmf::disc::Disc;
use pw_world_model::answers::Applied;
use pw_world_model::laws::stamp_laws;
use pw_world_model::stepping::actor_laws;
use pw_world_model::task::Outcome;

impl<D: Disc> World<D> {
    /// The answer to an outcome that does not pass, None exactly where it passes.
    pub(crate) fn refusal(&self, outcome: &Outcome) -> Option<Applied>
        requires { IsActor self.now.keep.system outcome.now.actor }
        ensures { Judges (seen D.told self.now) outcome.now result }
    {
        actor_laws();
        stamp_laws();
        if self.failed {
            return Some(Applied::DiscFault);
        }
        if self.is_full() {
            return Some(Applied::Limit);
        }
        let found = self.ledger.note(outcome.actor).stamp;
        if outcome.stamp != found {
            return Some(Applied::Stale {
                carried: outcome.stamp,
                found,
            });
        }
        if self.is_unrun(outcome) {
            return Some(Applied::Unrun);
        }
        None
    }

    /// Whether the log has as many entries as it may, and is not finished.
    pub fn is_full(&self) -> bool
        ensures { IsTrue result ↔ IsFull (seen D.told self.now) }
    {
        self.ledger.log().len() == self.limit as usize && !self.finished()
    }

    /// Whether the actor's kept context stands at an answer, and the outcome was given none or another
    /// one.
    fn is_unrun(&self, outcome: &Outcome) -> bool
        requires { IsActor self.now.keep.system outcome.now.actor }
        ensures unrun { IsTrue result ↔ IsUnrun (seen D.told self.now) outcome.now }
        ensures given { result ≡ false → IsOfWork (seen D.told self.now) outcome.now }
    {
        match (self.unread(outcome.actor), &outcome.given) {
            (None, _) => false,
            (Some(context), Some(given)) => !given.is_same(context),
            (Some(_), None) => true,
        }
    }
}
