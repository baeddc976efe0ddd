ghost use Rattle.std.specs.Prelude.{◌≡◌, ℕ, Bool, Some, false};
ghost use Rattle.pw_event.specs.Due.{owner_of};
ghost use Rattle.pw_event.specs.declared.event.Event.{Event};
ghost use Rattle.pw_event.specs.declared.event.Event.TheVariants.{FailServer, FailTcp};
ghost use Rattle.pw_event.specs.declared.script.FailLine.TheVariants as line;
ghost use Rattle.pw_event.specs.declared.script.Owner.TheVariants as owner;
ghost use Rattle.pw_world_model.specs.Dues.{due_in};
ghost use Rattle.pw_world_model.specs.Enabled.{IsEnabled};
ghost use Rattle.pw_world_model.specs.Failures.{FailsBy};
ghost use Rattle.pw_world_model.specs.Seen.{Seen, finished, sys_of};
ghost use Rattle.pw_world_model.specs.Worlds.{Books, IsWorld};
ghost use Rattle.pw_paired.specs.Failure.{fail_line};
ghost use Rattle.pw_actor_queue.specs.declared.actor.Actor.{Actor};
ghost use Rattle.pw_actor_queue.specs.declared.actor.Actor.TheVariants.{Class, Pair};

/// While a failure line of a pair or class is due, its FAIL entry is a step of the pair or class, and
/// no other entry that belongs to them is a step.
pub fn fail_laws()
    ensures tcp { (world : Seen) (books : Books) (p k after : ℕ) (primary : Bool)
        → IsWorld world books → finished world ≡ false → due_in books.due (owner.Tcp p) ≡ Some k
        → fail_line world.script k ≡ Some (line.Tcp p primary after)
        → IsEnabled world (Pair p) (FailTcp p primary k) }
    ensures server { (world : Seen) (books : Books) (c i k after : ℕ)
        → IsWorld world books → finished world ≡ false → due_in books.due (owner.Class c) ≡ Some k
        → fail_line world.script k ≡ Some (line.Server c i after)
        → IsEnabled world (Class c) (FailServer c i k) }
    ensures only { (world : Seen) (books : Books) (actor : Actor) (entry : Event) (k : ℕ)
        → IsWorld world books → IsEnabled world actor entry
        → due_in books.due (owner_of (sys_of world).pair_of entry) ≡ Some k
        → FailsBy world k actor entry }
{}
