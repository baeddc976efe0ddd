ghost use Rattle.std.specs.Prelude.{◌≡◌, false, true};
ghost use Rattle.pw_world_model.specs.Actors.{IsActor};
ghost use Rattle.pw_world_model.specs.Answers.{IsWorldIdle, IsWork};
ghost use Rattle.pw_world_model.specs.Enabled.{MayWork};
ghost use Rattle.pw_world_model.specs.Seen.{Seen, finished, work_of};
ghost use Rattle.pw_world_model.specs.Worlds.{Books, IsWorld};
ghost use Rattle.pw_actor_queue.specs.declared.actor.Actor.{Actor};

/// What `claim` may answer: the task of an actor that is not out and may work, with its stamp and its
/// work; or, where every actor that is marked is out, that the world is idle.
pub fn claim_laws()
    ensures work { (world : Seen) (books : Books) (actor : Actor)
        → IsWorld world books → IsActor world.system actor → world.out actor ≡ false
        → MayWork world actor
        → IsWork world
        (record { actor = actor; stamp = books.stamps actor; work = work_of world actor }) }
    ensures idle { (world : Seen) (books : Books)
        → IsWorld world books → finished world ≡ false
        → ((actor : Actor) → IsActor world.system actor → books.marked actor ≡ true
        → world.out actor ≡ true)
        → IsWorldIdle world }
{}
