ghost use Rattle.std.specs.Prelude.{◌≡◌, ◌↔◌, ◌==◌, ◌++◌, ◌∷◌, [], ℕ, List, false, slice_index_or, true};
ghost use Rattle.pw_event.specs.Due.{due_line, owner_of};
ghost use Rattle.pw_event.specs.declared.event.Event.{Event};
ghost use Rattle.pw_event.specs.declared.script.FailLine.{FailLine};
ghost use Rattle.pw_event.specs.declared.script.Owner.{Owner};
ghost use Rattle.pw_world_model.specs.Answers.{HasFreshStamp, IsWork};
ghost use Rattle.pw_world_model.specs.Dues.{DueBook, IsBookOf, IsOwner, after_entry, due_in, first_book};
ghost use Rattle.pw_world_model.specs.OneSends.{BeginsOneSend, begins_one_send, one_sends};
ghost use Rattle.pw_world_model.specs.Seen.{Seen, sys_of};
ghost use Rattle.pw_world_model.specs.Stamps.{IsStamp};
ghost use Rattle.pw_world_model.specs.Worlds.{live_below};
ghost use Rattle.pw_world_model.specs.declared.task.Outcome.{Outcome};
ghost use Rattle.pw_world_model.specs.declared.task.Task.{Task};
ghost use Rattle.pw_actor_queue.specs.declared.actor.Actor.{Actor};
ghost use Rattle.pw_onecopy.specs.Behaviour.{Behaviour};
ghost use Rattle.pw_paired.specs.Shown.{refresh_of, refreshes};
ghost use Rattle.pw_paired.specs.State.{State};
ghost use Rattle.pw_paired.specs.Step.{after, is_finished};

/// An actor has one stamp. What came of a claimed task has it as long as no entry is pushed, so such an outcome is
/// Stale only where one was pushed since the claim (docs/design/ARCHITECTURE.md).
pub fn stamp_laws()
    ensures one { (sys : Behaviour) (log : List Event) (actor : Actor) (n m : ℕ)
        → IsStamp sys log actor n
        → IsStamp sys log actor m → n ≡ m }
    ensures fresh { (world new : Seen) (task : Task) (outcome : Outcome) → IsWork world task
        → outcome.actor ≡ task.actor → outcome.stamp ≡ task.stamp
        → sys_of new ≡ sys_of world → new.log ≡ world.log → HasFreshStamp new outcome }
{}

/// A book of failure lines that is one of a log tells which line is due, and is one of the log with
/// one more entry behind that entry; so no due line is looked for in the log.
pub fn due_laws()
    ensures first { (tcps classes : ℕ) (pair_of : ℕ → ℕ) (lines : List FailLine)
        → IsBookOf tcps classes pair_of lines [] (first_book tcps classes lines) }
    ensures due { (tcps classes : ℕ) (pair_of : ℕ → ℕ) (lines : List FailLine) (log : List Event)
        (book : DueBook)
        (owner : Owner) → IsBookOf tcps classes pair_of lines log book → IsOwner tcps classes owner
        → due_in book owner ≡ due_line pair_of lines log owner }
    ensures next { (tcps classes : ℕ) (pair_of : ℕ → ℕ) (lines : List FailLine) (log : List Event)
        (book : DueBook)
        (entry : Event) → IsBookOf tcps classes pair_of lines log book
        → IsOwner tcps classes (owner_of pair_of entry)
        → IsBookOf tcps classes pair_of lines (log ++ entry ∷ []) (after_entry pair_of entry book) }
{}

/// What a world keeps beside its log: whether an entry begins a unit that is one SEND, the
/// refreshes, and how many terminals are live; and what one more entry adds to the first two.
pub fn book_laws()
    ensures one_send { (sys : Behaviour) (log : List Event) (place : ℕ)
        → (slice_index_or (one_sends sys log) place false ≡ true) ↔ BeginsOneSend sys log place }
    ensures sends { (sys : Behaviour) (log : List Event) (entry : Event)
        → one_sends sys (log ++ entry ∷ [])
        ≡ one_sends sys log ++ begins_one_send sys (after sys log) entry ∷ [] }
    ensures screens { (sys : Behaviour) (log : List Event) (entry : Event)
        → refreshes sys (log ++ entry ∷ [])
        ≡ refreshes sys log ++ refresh_of sys (after sys log) entry }
    ensures live { (sys : Behaviour) (state : State)
        → is_finished sys state ≡ (live_below sys.terminals state == 0) }
{}
