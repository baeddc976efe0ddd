ghost use Rattle.std.specs.Prelude.{◌≡◌, ℕ, ◌≤◌, List, length, true};
ghost use Rattle.pw_event.specs.declared.event.Event.{Event};
ghost use Rattle.pw_onecopy.specs.Behaviour.{Behaviour};
ghost use Rattle.pw_onecopy.specs.IsBehaviour.{IsBehaviour};
ghost use Rattle.pw_paired.specs.Step.{IsRun, after, is_finished};
ghost use Rattle.pw_run_bounds.specs.Bound.{ProgramsEnd, run_bound};
ghost use Rattle.pw_run_bounds.specs.Schedule.{Fair, IsRunBy, AskingSchedule};

/// Where no path of a terminal has more than n answers and no run of a server more than m operations, no run of a deck is
/// longer than its bound, whatever fails and whichever of the legal steps are taken.
pub fn runs_are_bounded()
    ensures { (sys : Behaviour) → IsBehaviour sys → (n m : ℕ) → ProgramsEnd sys n m
        → (log : List Event) → IsRun sys log → length log ≤ run_bound sys n m }
{}

/// Where programs end so and each actor is asked again and again, there is a number at which the run is finished.
pub fn fair_runs_finish()
    ensures { (sys : Behaviour) → IsBehaviour sys → (n m : ℕ) → ProgramsEnd sys n m
        → (asked : AskingSchedule) → Fair asked → (logs : ℕ → List Event) → IsRunBy sys asked logs
        → (k : ℕ) × IsRun sys (logs k) × (is_finished sys (after sys (logs k)) ≡ true) }
{}
