ghost use Rattle.std.specs.Prelude.{◌≡◌, ◌≢◌, ◌+◌, ◌++◌, ◌∷◌, [], ℕ, Bool, length, Some, false, map, slice_get, true, ◌<◌, IsSome, None};
ghost use Rattle.pw_class.specs.Queue.{at_process};
ghost use Rattle.pw_code.specs.declared.context.Context.{Context};
ghost use Rattle.pw_code.specs.declared.system.ClassInfo.{ClassInfo};
ghost use Rattle.pw_code.specs.declared.system.TermInfo.{TermInfo};
ghost use Rattle.pw_code.specs.declared.verb.Verb.{Verb};
ghost use Rattle.pw_event.specs.declared.event.Event.{Event};
ghost use Rattle.pw_code_meaning.specs.Contexts.{RunsOn};
ghost use Rattle.pw_world_state.specs.Changes.{kept_ran, kept_show, with_job};
ghost use Rattle.pw_world_state.specs.Entered.{entered};
ghost use Rattle.pw_world_state.specs.Needs.{Needs};
ghost use Rattle.pw_world_model.specs.Actors.{IsActor};
ghost use Rattle.pw_world_state.specs.Members.{members_of};
ghost use Rattle.pw_world_model.specs.Answers.{ran};
ghost use Rattle.pw_world_model.specs.Pushed.{AreMarked, CanPush, booked, pushed};
ghost use Rattle.pw_world_model.specs.Seen.{Seen, state_of, sys_of, work_of};
ghost use Rattle.pw_world_model.specs.Stamps.{IsStamp, state_in};
ghost use Rattle.pw_world_model.specs.Tasks.{RanOn};
ghost use Rattle.pw_world_model.specs.Touches.{stamped, touches};
ghost use Rattle.pw_world_model.specs.Worlds.{Books, IsWorld};
ghost use Rattle.pw_world_model.specs.declared.task.Outcome.{Outcome};
ghost use Rattle.pw_actor_queue.specs.declared.actor.Actor.{Actor};
ghost use Rattle.pw_actor_queue.specs.declared.actor.Actor.TheVariants.{Process, Terminal};

/// The table of touched actors is exact: in a world an entry that can be pushed changes the state of
/// an actor exactly where the table says so. So behind the entry the stamps are those of the log.
pub fn touch_laws()
    ensures changes { (world : Seen) (books : Books) (entry : Event) (actor : Actor)
        → IsWorld world books → CanPush world entry → IsActor world.system actor
        → touches world.system world.kept entry actor ≡ true
        → state_in (sys_of world) (state_of world) actor
        ≢ state_in (sys_of world) (state_of (pushed world entry)) actor }
    ensures stays { (world : Seen) (books : Books) (entry : Event) (actor : Actor)
        → IsWorld world books → CanPush world entry → IsActor world.system actor
        → touches world.system world.kept entry actor ≡ false
        → state_in (sys_of world) (state_of world) actor
        ≡ state_in (sys_of world) (state_of (pushed world entry)) actor }
    ensures stamps { (world : Seen) (books : Books) (entry : Event) (actor : Actor)
        → IsWorld world books → CanPush world entry → IsActor world.system actor
        → IsStamp (sys_of world) (world.log ++ entry ∷ []) actor
        (stamped world.system world.kept entry (length world.log + 1) books.stamps actor) }
{}

/// A world behind an entry that can be pushed is one again, with its books behind the entry.
pub fn push_laws()
    ensures needs { (world : Seen) (books : Books) (entry : Event)
        → IsWorld world books → CanPush world entry
        → Needs world.system world.script (state_of world) world.kept entry }
    ensures members { (world : Seen) (books : Books) (entry : Event)
        → IsWorld world books → CanPush world entry
        → entered world.system (λ p. map (λ seat. seat.terminal) (world.kept.pairs p).seats) entry
        world.kept
        ≡ entered world.system (members_of world.system) entry world.kept }
    ensures world { (world : Seen) (books : Books) (entry : Event) (marked : Actor → Bool)
        → IsWorld world books → CanPush world entry → AreMarked (pushed world entry) marked
        → IsWorld (pushed world entry) (booked world entry marked books) }
{}

/// A world in which a kept context has run on to its next verb is one again; so is one in which that
/// of an outcome has. A context that has run on can be put back. What a terminal is to run on from is
/// its context at its last answer, and a process with a context is busy.
pub fn running_laws()
    ensures terminal { (world : Seen) (books : Books) (t : ℕ) (info : TermInfo)
        (old new : Context) (verb : Verb) (marked : Actor → Bool)
        → IsWorld world books → slice_get world.system.terminals t ≡ Some info
        → (world.kept.terminals t).context ≡ Some old → RunsOn world.system old new verb
        → AreMarked (record world { kept = kept_ran t new world.kept }) marked
        → IsWorld (record world { kept = kept_ran t new world.kept })
        (record books { marked = marked }) }
    ensures process { (world : Seen) (books : Books) (c i : ℕ) (info : ClassInfo)
        (old new : Context) (verb : Verb) (marked : Actor → Bool)
        → IsWorld world books → slice_get world.system.classes c ≡ Some info
        → world.kept.jobs c i ≡ Some old → RunsOn world.system old new verb
        → AreMarked (record world { kept = with_job c i (Some new) world.kept }) marked
        → IsWorld (record world { kept = with_job c i (Some new) world.kept })
        (record books { marked = marked }) }
    ensures outcome { (world : Seen) (books : Books) (outcome : Outcome) (marked : Actor → Bool)
        → IsWorld world books → IsActor world.system outcome.actor
        → RanOn world.system outcome.given outcome.verb outcome.work
        → ((context : Context) → work_of world outcome.actor ≡ Some context
        → outcome.given ≡ Some context)
        → AreMarked (ran world outcome) marked
        → IsWorld (ran world outcome) (record books { marked = marked }) }
    ensures terminal_back { (world : Seen) (books : Books) (t : ℕ) (given new : Context)
        → IsWorld world books → t < length world.system.terminals
        → work_of world (Terminal t) ≡ Some given
        → kept_show t given (kept_ran t new world.kept) ≡ world.kept }
    ensures process_back { (world : Seen) (books : Books) (c i : ℕ) (given new : Context)
        → IsWorld world books → work_of world (Process c i) ≡ Some given
        → with_job c i (Some given) (with_job c i (Some new) world.kept) ≡ world.kept }
    ensures busy { (world : Seen) (books : Books) (c i : ℕ) (context : Context)
        → IsWorld world books → c < length world.system.classes
        → world.kept.jobs c i ≡ Some context → IsSome (at_process (world.kept.queues c) i) }
    ensures behind { (world : Seen) (books : Books) (t : ℕ) (given : Context)
        → IsWorld world books → t < length world.system.terminals
        → work_of world (Terminal t) ≡ Some given
        → ((world.kept.terminals t).context ≡ Some given)
        × ((world.kept.terminals t).ready ≡ None) }
{}
