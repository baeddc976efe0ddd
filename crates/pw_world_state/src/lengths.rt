ghost use Rattle.std.specs.Prelude.{◌≡◌, ◌<◌, ◌≤◌, ℕ, List, Some, length};
ghost use Rattle.pw_event.specs.declared.event.Event.{Event};
ghost use Rattle.pw_onecopy.specs.Behaviour.{Behaviour};
ghost use Rattle.pw_onecopy.specs.IsBehaviour.{IsBehaviour};
ghost use Rattle.pw_onecopy.specs.Path.{PathAnswer};
ghost use Rattle.pw_paired.specs.State.{Job};
ghost use Rattle.pw_paired.specs.Step.{IsRun, after};
ghost use Rattle.pw_paired.specs.Terminal.{path_of};
ghost use Rattle.pw_paired.specs.Units.{attempt_of};

/// In every run of a deck no path and no start path of an attempt has more answers than the log has
/// entries, and no server at work was answered more often. So what a context counts stays below the
/// limit of entries.
pub fn length_laws()
    ensures paths { (sys : Behaviour) → IsBehaviour sys → (log : List Event) → IsRun sys log
        → (t : ℕ) → t < sys.terminals → length (path_of (after sys log) t) ≤ length log }
    ensures starts { (sys : Behaviour) → IsBehaviour sys → (log : List Event) → IsRun sys log
        → (t : ℕ) (path : List PathAnswer) → t < sys.terminals
        → attempt_of ((after sys log).units t) ≡ Some path → length path ≤ length log }
    ensures servers { (sys : Behaviour) (log : List Event) → IsRun sys log
        → (c i : ℕ) (job : Job) → ((after sys log).classes c).busy i ≡ Some job
        → length job.done ≤ length log }
{}
