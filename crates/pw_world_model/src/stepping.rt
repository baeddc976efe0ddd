ghost use Rattle.std.specs.Prelude.{◌≡◌, ◌≤◌, ◌<◌, ◌-◌, ◌^◌, [], ℕ, All, Bool, List, None, Some, false, length, slice_get, true};
ghost use Rattle.pw_code.specs.Limits.{most_log_lines};
ghost use Rattle.pw_code.specs.Valid.{IsValid};
ghost use Rattle.pw_code.specs.declared.context.Context.{Context};
ghost use Rattle.pw_code.specs.declared.system.System.{System};
ghost use Rattle.pw_code.specs.declared.system.TermInfo.{TermInfo};
ghost use Rattle.pw_event.specs.Due.{owner_of};
ghost use Rattle.pw_event.specs.declared.event.Event.{Event};
ghost use Rattle.pw_event.specs.declared.event.Event.TheVariants.{Reply};
ghost use Rattle.pw_event.specs.declared.script.FailLine.{FailLine};
ghost use Rattle.pw_code_meaning.specs.OfSystem.{behaviour};
ghost use Rattle.pw_world_state.specs.Arrivals.{StandsForPath};
ghost use Rattle.pw_world_state.specs.Kept.{Kept};
ghost use Rattle.pw_world_state.specs.May.{IsLineThere, IsThere, may};
ghost use Rattle.pw_world_state.specs.Meeting.{IsStepRead, StepShows};
ghost use Rattle.pw_world_state.specs.Read.{AreValued, IsEntryRead, IsReplyRead};
ghost use Rattle.pw_world_model.specs.Actors.{IsActor, actor_of};
ghost use Rattle.pw_world_model.specs.Dues.{IsOwner, due_in};
ghost use Rattle.pw_world_model.specs.Enabled.{IsEnabled, MayWork};
ghost use Rattle.pw_world_model.specs.Pushed.{first_books, first_world};
ghost use Rattle.pw_world_model.specs.Seen.{Seen, finished, state_of, sys_of, work_of};
ghost use Rattle.pw_world_model.specs.Worlds.{Books, IsDiscOf, IsNew, IsWorld};
ghost use Rattle.pw_onecopy.specs.IsBehaviour.{IsBehaviour};
ghost use Rattle.pw_paired.specs.Step.{Legal, line_wanted};
ghost use Rattle.pw_actor_queue.specs.Places.{is_placed};
ghost use Rattle.pw_actor_queue.specs.declared.actor.Actor.{Actor};
ghost use Rattle.pw_laws.specs.serial.Guarded.{is_fail};
ghost use Rattle.pw_tmf.specs.Told.{Told};

/// Which entries of a world are steps: those that name what is there, pass the test of what is kept,
/// and whose failure line is the one that is due, where the log is not finished. A legal reply finds
/// its terminal's program at its verb, and where an actor has nothing to run on, what the tests of
/// its entries speak of has been read.
pub fn legal_laws()
    ensures there { (world : Seen) (books : Books) (entry : Event)
        → IsWorld world books → Legal (sys_of world) (state_of world) entry
        → IsThere world.system entry }
    ensures legal { (world : Seen) (books : Books) (entry : Event)
        → IsWorld world books → IsThere world.system entry
        → IsEntryRead world.system world.kept entry → AreValued world.system world.kept entry
        → finished world ≡ false
        → due_in books.due (owner_of (sys_of world).pair_of entry) ≡ line_wanted entry
        → may world.system world.script world.kept entry ≡ true
        → Legal (sys_of world) (state_of world) entry }
    ensures shows { (world : Seen) (books : Books) (entry : Event)
        → IsWorld world books → IsThere world.system entry
        → IsStepRead world.system world.kept entry → AreValued world.system world.kept entry
        → finished world ≡ false
        → due_in books.due (owner_of (sys_of world).pair_of entry) ≡ line_wanted entry
        → may world.system world.script world.kept entry ≡ true
        → IsEnabled world (actor_of (sys_of world) entry) entry }
    ensures due { (world : Seen) (books : Books) (entry : Event)
        → IsWorld world books → Legal (sys_of world) (state_of world) entry
        → (finished world ≡ false)
        × (due_in books.due (owner_of (sys_of world).pair_of entry) ≡ line_wanted entry) }
    ensures passes { (world : Seen) (books : Books) (entry : Event)
        → IsWorld world books → IsStepRead world.system world.kept entry
        → AreValued world.system world.kept entry
        → Legal (sys_of world) (state_of world) entry
        → StepShows (sys_of world) (state_of world) world.kept entry
        → may world.system world.script world.kept entry ≡ true }
    ensures must { (world : Seen) (books : Books) (entry : Event)
        → IsWorld world books → IsEntryRead world.system world.kept entry
        → AreValued world.system world.kept entry
        → Legal (sys_of world) (state_of world) entry
        → may world.system world.script world.kept entry ≡ true }
    ensures read { (world : Seen) (books : Books) (entry : Event)
        → IsWorld world books → work_of world (actor_of (sys_of world) entry) ≡ None
        → IsStepRead world.system world.kept entry }
    ensures reply { (world : Seen) (books : Books) (entry : Event)
        → IsWorld world books → Legal (sys_of world) (state_of world) entry
        → IsReplyRead world.kept entry }
{}

/// The test of an entry that is no FAIL entry looks at no script; an entry that names what is there
/// belongs to a pair or class of the system, is a step of an actor of it, and each actor has a place.
pub fn actor_laws()
    ensures script { (system : System) (script : List FailLine) (kept : Kept) (entry : Event)
        → is_fail entry ≡ false → may system [] kept entry ≡ may system script kept entry }
    ensures owner { (system : System) (script : List FailLine) (entry : Event)
        → IsBehaviour (behaviour script system) → IsThere system entry
        → IsOwner (length system.tcps) (length system.classes)
        (owner_of (behaviour script system).pair_of entry) }
    ensures actor { (system : System) (script : List FailLine) (entry : Event)
        → IsBehaviour (behaviour script system) → IsThere system entry
        → IsActor system (actor_of (behaviour script system) entry) }
    ensures placed { (system : System) (actor : Actor) → IsValid system → IsActor system actor
        → is_placed actor ≡ true }
{}

/// While the log is not finished, an actor may work.
pub fn idle_laws()
    ensures { (world : Seen) (books : Books) → IsWorld world books → finished world ≡ false
        → (actor : Actor) × (IsActor world.system actor × MayWork world actor) }
{}

/// The world before the first entry is one, and a new one.
pub fn first_laws()
    ensures world { (system : System) (script : List FailLine) (contexts : ℕ → Context) (disc : Told)
        (limit : ℕ)
        → IsValid system → IsBehaviour (behaviour script system) → limit ≤ most_log_lines
        → All (IsLineThere system) script → length script < 2 ^ 32 - 1
        → IsDiscOf system script disc
        → ((t : ℕ) (info : TermInfo) → slice_get system.terminals t ≡ Some info
        → StandsForPath system info [] (contexts t))
        → IsWorld (first_world system script contexts disc limit) (first_books system script) }
    ensures new { (system : System) (script : List FailLine) (contexts : ℕ → Context) (disc : Told)
        (limit : ℕ)
        → IsNew system script disc limit (first_world system script contexts disc limit) }
{}
