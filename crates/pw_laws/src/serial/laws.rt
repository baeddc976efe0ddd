ghost use Rattle.std.specs.Prelude.{◌≡◌, ◌≢◌, ℕ, ◌-◌, ◌<◌, ◌≤◌, List, [], ◌+◌, ◌∷◌, ◌++◌, length, None, false, true};
ghost use Rattle.std.specs.List.{Contains};
ghost use Rattle.pw_code.specs.declared.verb.Verb.TheVariants as verb;
ghost use Rattle.pw_event.specs.declared.event.Cause.{Cause};
ghost use Rattle.pw_event.specs.declared.event.Ending.TheVariants.{Lost, Suspended};
ghost use Rattle.pw_event.specs.declared.event.Event.{Event};
ghost use Rattle.pw_event.specs.declared.event.Event.TheVariants.{Commit, End, Reply};
ghost use Rattle.pw_onecopy.specs.Behaviour.{Behaviour};
ghost use Rattle.pw_onecopy.specs.IsBehaviour.{IsBehaviour, IsPath};
ghost use Rattle.pw_onecopy.specs.Path.{PathAnswer, is_outside, unit_number};
ghost use Rattle.pw_onecopy.specs.Refreshes.{same_number};
ghost use Rattle.pw_onecopy.specs.declared.refresh.Refresh.{Refresh};
ghost use Rattle.pw_paired.specs.Headline.{IsSerializable};
ghost use Rattle.pw_paired.specs.Shown.{refreshes};
ghost use Rattle.pw_paired.specs.State.{Gone};
ghost use Rattle.pw_paired.specs.Step.{IsRun, after, change, is_finished};
ghost use Rattle.pw_paired.specs.Terminal.{path_of};
ghost use Rattle.pw_paired.specs.Units.{committed_files};
ghost use Rattle.pw_laws.specs.serial.Actors.{StepActor, ActorSteps};
ghost use Rattle.pw_laws.specs.serial.Promises.{KeepsPromises};
ghost use Rattle.pw_laws.specs.serial.Restarts.{older_restarts_in};
ghost use Rattle.pw_laws.specs.serial.Guarded.{HasEndedOnce, IsGuarded, NoneCommits, is_fail};

/// Every run of a deck is serializable, for every interleaving of terminals, servers and
/// checkpoints and whatever fails: the one-copy machine is defined on its serial order, its screens
/// are the log's with each number counted once, its records are the committed ones, and its endings
/// are the log's.
pub fn runs_are_serializable()
    ensures { (sys : Behaviour) → IsBehaviour sys → (log : List Event) → IsRun sys log
        → IsSerializable sys log }
{}

/// Every run of a deck keeps what is promised of logs, whatever fails (docs/proof/PROMISES.md).
pub fn runs_keep_their_promises()
    ensures { (sys : Behaviour) → IsBehaviour sys → (log : List Event) → IsRun sys log
        → KeepsPromises sys log }
{}

/// In a run of a deck two refreshes of one terminal with the same number show the same screen.
pub fn equal_numbers_equal_images()
    ensures { (sys : Behaviour) → IsBehaviour sys → (log : List Event) → IsRun sys log
        → (one other : Refresh)
        → Contains (refreshes sys log) one → Contains (refreshes sys log) other
        → one.terminal ≡ other.terminal → same_number one other ≡ true
        → one.image ≡ other.image }
{}

/// In every run of a deck that is not finished an actor has a step: a terminal, a process, a pair
/// or a class. What waits for a unit waits for an older one.
pub fn unfinished_runs_have_a_step()
    ensures { (sys : Behaviour) → IsBehaviour sys → (log : List Event) → IsRun sys log
        → is_finished sys (after sys log) ≡ false
        → (actor : StepActor) × ActorSteps sys (after sys log) actor }
{}

/// What failures leave. Where no FAIL TCP entry of a run is of the primary in mode Raising or
/// Alone, or of the backup in mode Down, no pair is Gone and no terminal lost. A commit that was
/// entered stays, whatever fails: its unit has ended exactly once, and the committed records stay
/// until another unit commits. And an entry that is no failure changes more of the state than its
/// log.
pub fn guarded_pairs_are_kept()
    ensures pairs { (sys : Behaviour) (log : List Event) → IsGuarded sys log
        → (p : ℕ) → (after sys log).modes p ≢ Gone }
    ensures terminals { (sys : Behaviour) (log : List Event) → IsRun sys log → IsGuarded sys log
        → (before behind : List Event) (t : ℕ) → ¬ (log ≡ before ++ End t Lost ∷ behind) }
    ensures commit { (sys : Behaviour) → IsBehaviour sys → (before more : List Event) (t n : ℕ)
        → IsRun sys (before ++ Commit t n ∷ more)
        → HasEndedOnce sys (before ++ Commit t n ∷ more) t n }
    ensures send { (sys : Behaviour) → IsBehaviour sys → (before more : List Event) (c i t : ℕ)
        → IsRun sys (before ++ Reply c i t None ∷ more)
        → is_outside (path_of (after sys before) t) ≡ true
        → HasEndedOnce sys (before ++ Reply c i t None ∷ more) t
        (unit_number (path_of (after sys before) t)) }
    ensures records { (sys : Behaviour) → IsBehaviour sys → (log more : List Event)
        → IsRun sys (log ++ more) → NoneCommits sys log more
        → (f : ℕ) → committed_files sys (after sys (log ++ more)) f
        ≡ committed_files sys (after sys log) f }
    ensures changes { (sys : Behaviour) → IsBehaviour sys → (log : List Event) (entry : Event)
        → IsRun sys (log ++ entry ∷ []) → is_fail entry ≡ false
        → change sys (after sys log) entry ≢ after sys log }
{}

/// In a run of a deck a unit restarts as the younger one at most as often as there are other
/// terminals.
pub fn older_restarts_are_few()
    ensures { (sys : Behaviour) → IsBehaviour sys → (log : List Event) → IsRun sys log
        → (t n : ℕ) → t < sys.terminals → older_restarts_in t n log ≤ sys.terminals - 1 }
{}

/// Where each terminal may restart as often as there are other terminals and failure lines
/// together, and no program ever asks to restart, no terminal is suspended in any run.
pub fn enough_restarts_never_suspend()
    ensures { (sys : Behaviour) → IsBehaviour sys
        → ((t : ℕ) → t < sys.terminals
        → sys.terminals - 1 + length sys.script ≤ sys.max_restarts t)
        → ((t : ℕ) (path : List PathAnswer) → IsPath sys t path → sys.ask t path ≢ verb.Redo)
        → (before behind : List Event) (t : ℕ) (cause : Cause)
        → ¬ IsRun sys (before ++ End t (Suspended cause) ∷ behind) }
{}
