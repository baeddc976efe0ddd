ghost use Rattle.std.specs.Prelude.{ℕ, Bool, true};
ghost use Rattle.pw_base.specs.Outside.{Rose};
ghost use Rattle.pw_world_state.specs.Changes.{at_pair};
ghost use Rattle.pw_event.specs.declared.event.Event.{Event};
ghost use Rattle.pw_world_model.specs.Enabled.{IsEnabled, MayWork};
ghost use Rattle.pw_world_model.specs.Pushed.{AreMarked};
ghost use Rattle.pw_world_model.specs.Seen.{Seen};
ghost use Rattle.pw_world_model.specs.Worlds.{Books, IsWorld};
ghost use Rattle.pw_pair.specs.Pairs.{changed_at};
ghost use Rattle.pw_pair.specs.Seats.{built};
ghost use Rattle.pw_actor_queue.specs.declared.actor.Actor.{Actor};

/// A world that is changed beside its log is one still: where its disc has failed, where other actors
/// are out, where all that may work are marked, and where a message in flight is built. Who is out
/// changes no step.
pub fn beside_laws()
    ensures failed { (world : Seen) (books : Books) (n : ℕ)
        → IsWorld world books → Rose world.faults n
        → IsWorld (record world {
          failed = true;
          kept = record world.kept { disc = record world.kept.disc { faults = n } };
        })
        books }
    ensures out { (world : Seen) (books : Books) (out : Actor → Bool)
        → IsWorld world books → IsWorld (record world { out = out }) books }
    ensures marked { (world : Seen) (books : Books) (marked : Actor → Bool)
        → IsWorld world books → AreMarked world marked
        → IsWorld world (record books { marked = marked }) }
    ensures builds { (world : Seen) (books : Books) (p t : ℕ) (marked : Actor → Bool)
        → IsWorld world books → AreMarked world marked
        → IsWorld (record world { kept = at_pair p (changed_at t built) world.kept })
        (record books { marked = marked }) }
    ensures steps { (world : Seen) (out : Actor → Bool) (actor : Actor) (entry : Event)
        → IsEnabled world actor entry → IsEnabled (record world { out = out }) actor entry }
    ensures work { (world : Seen) (out : Actor → Bool) (actor : Actor)
        → MayWork (record world { out = out }) actor → MayWork world actor }
{}
