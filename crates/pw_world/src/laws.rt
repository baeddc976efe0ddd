ghost use Rattle.std.specs.Prelude.{◌≡◌, ℕ, List, Option, false, true, None, Some};
ghost use Rattle.pw_entry_effects.specs.Can.{CanAct};
ghost use Rattle.pw_class.specs.Queue.{Queue};
ghost use Rattle.pw_code.specs.declared.context.Context.{Context};
ghost use Rattle.pw_code.specs.declared.system.System.{System};
ghost use Rattle.pw_event.specs.declared.event.Event.{Event};
ghost use Rattle.pw_event.specs.declared.event.Event.TheVariants.{CheckCopy};
ghost use Rattle.pw_image.specs.Values.{HasValues};
ghost use Rattle.pw_world_store.specs.Keeps.{IsKeep, kept_by};
ghost use Rattle.pw_world_state.specs.Entered.{copied};
ghost use Rattle.pw_world_state.specs.May.{IsThere, may};
ghost use Rattle.pw_world_state.specs.Read.{AreValued};
ghost use Rattle.pw_world_model.specs.Actors.{actor_of};
ghost use Rattle.pw_world_model.specs.Answers.{IsBuilt, HasOnlyUnbuiltSteps};
ghost use Rattle.pw_world_model.specs.Enabled.{HasEnabledStep, IsEnabled};
ghost use Rattle.pw_world_model.specs.Pushed.{CanPush};
ghost use Rattle.pw_world_model.specs.Seen.{Seen, finished, sys_of, work_of};
ghost use Rattle.pw_world_model.specs.Worlds.{Books, IsWorld};
ghost use Rattle.pw_pair.specs.Pairs.{SeenPair};
ghost use Rattle.pw_actor_queue.specs.declared.actor.Actor.{Actor};
ghost use Rattle.pw_world_store.specs.declared.job.ProcessJob.{ProcessJob};
ghost use Rattle.pw_world_store.specs.declared.seat.Seat.{Seat};
ghost use Rattle.pw_entry_tests.specs.Known.{IsKnown};
ghost use Rattle.pw_entry_tests.specs.Steps as steps;
ghost use Rattle.pw_entry_tests.specs.Steps.{IsStepFound, IsStepOf};
ghost use Rattle.pw_tmf.specs.Told.{Told};
ghost use Rattle.pw_world.specs.Bare.{IsBare};
ghost use Rattle.pw_world.specs.OwnValues.{HasOwnValues};
ghost use Rattle.pw_world.specs.Undue.{IsUndue};

/// An entry of a world that can be pushed can be made.
pub fn act_laws()
    ensures { (world : Seen) (books : Books) (entry : Event)
        → IsWorld world books → IsBare world.system world.kept → CanPush world entry
        → CanAct world.system world.kept entry }
{}

/// What the tests of entries take of what is kept holds of every world.
pub fn known_laws()
    ensures { (world : Seen) (books : Books)
        → IsWorld world books → IsBare world.system world.kept → IsKnown world.system world.kept }
{}

/// What `step` tells of an actor, while no failure line is due for its entries and the contexts of a
/// terminal have numbers and characters of their types: a step that it finds is one that shows, and
/// where it finds none and the actor has nothing to run on, the actor has none. A step that it finds
/// with a message that is not built is one of an actor that has no other, and every other one that
/// passes its test is built.
pub fn found_laws()
    ensures some { (world : Seen) (books : Books) (actor : Actor) (entry : Event)
        → IsWorld world books → IsUndue world books actor → finished world ≡ false
        → HasOwnValues world.kept actor
        → IsStepOf world.system world.kept actor entry → IsEnabled world actor entry }
    ensures none { (world : Seen) (books : Books) (actor : Actor)
        → IsWorld world books → IsUndue world books actor → work_of world actor ≡ None
        → HasOwnValues world.kept actor
        → IsStepFound world.system world.kept actor None → ¬ HasEnabledStep world actor }
    ensures unbuilt { (world : Seen) (books : Books) (actor : Actor) (entry : Event)
        → IsWorld world books → IsUndue world books actor → work_of world actor ≡ None
        → HasOwnValues world.kept actor
        → IsStepFound world.system world.kept actor (Some entry) → IsEnabled world actor entry
        → steps.IsUnbuilt world.system world.kept entry → HasOnlyUnbuiltSteps world actor }
    ensures other { (world : Seen) (actor : Actor) (entry : Event)
        → IsEnabled world actor entry → ¬ steps.IsUnbuilt world.system world.kept entry
        → ¬ HasOnlyUnbuiltSteps world actor }
    ensures built { (world : Seen) (entry : Event)
        → ¬ steps.IsUnbuilt world.system world.kept entry
        → may world.system world.script world.kept entry ≡ true → IsBuilt world entry }
{}

/// The contexts of which an entry compares or sends images have numbers and characters of their types
/// where those of its terminal have, and that which a CHECK COPY sends.
pub fn value_laws()
    ensures { (world : Seen) (books : Books) (entry : Event)
        → IsWorld world books → IsThere world.system entry
        → HasOwnValues world.kept (actor_of (sys_of world) entry)
        → ((t : ℕ) (context : Context) → entry ≡ CheckCopy t
        → copied (world.kept.terminals t).start (world.kept.terminals t).context ≡ Some context
        → HasValues context)
        → AreValued world.system world.kept entry }
{}

/// Beyond the terminals and classes of its system, what is kept is nothing.
pub fn bare_laws()
    ensures { (system : System) (seats : List Seat) (disc : Told) (book : List Queue)
        (jobs : List (List (Option ProcessJob))) (pairs : List SeenPair) (births : ℕ)
        → IsKeep system seats disc book jobs pairs
        → IsBare system (kept_by seats disc book jobs pairs births) }
{}
