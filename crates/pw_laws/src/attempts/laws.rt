ghost use Rattle.std.specs.Prelude.{◌≡◌, ◌≢◌, ℕ, ◌+◌, ◌≤◌, List, [], ◌∷◌, ◌++◌, None, Some, true, false};
ghost use Rattle.pw_laws.specs.attempts.Answers.{CommitsAlone, answers_after, has_paths};
ghost use Rattle.pw_event.specs.declared.event.Event.{Event};
ghost use Rattle.pw_event.specs.declared.event.Event.TheVariants.{Commit, Reply};
ghost use Rattle.pw_onecopy.specs.Attempt.{IsAttempt, attempt};
ghost use Rattle.pw_onecopy.specs.Behaviour.{Behaviour};
ghost use Rattle.pw_onecopy.specs.IsBehaviour.{IsBehaviour};
ghost use Rattle.pw_onecopy.specs.Path.{PathAnswer, is_outside};
ghost use Rattle.pw_paired.specs.Raising.{is_takeover};
ghost use Rattle.pw_paired.specs.State.{OpenUnit};
ghost use Rattle.pw_paired.specs.Step.{IsRun, after};
ghost use Rattle.pw_paired.specs.Terminal.{path_of};
ghost use Rattle.pw_paired.specs.Units.{committed_files};

/// In a run of a deck a running attempt is the attempt that the one-copy machine makes alone, on
/// the committed records as they are now: from its start path, with its unit's restarts and as many
/// answers as entries have put on its path. While a member of the pair works and no takeover is
/// pending for the terminal, its path is the path of that attempt.
pub fn attempt_laws()
    ensures is { (sys : Behaviour) → IsBehaviour sys → (log : List Event) → IsRun sys log
        → (t : ℕ) (unit : OpenUnit) (start : List PathAnswer)
        → (after sys log).units t ≡ Some unit → unit.running ≡ Some start
        → IsAttempt sys t start (committed_files sys (after sys log)) unit.restarts
        (answers_after sys log t) }
    ensures path { (sys : Behaviour) → IsBehaviour sys → (log : List Event) → IsRun sys log
        → (t : ℕ) (unit : OpenUnit) (start : List PathAnswer)
        → (after sys log).units t ≡ Some unit → unit.running ≡ Some start
        → has_paths ((after sys log).modes (sys.pair_of t)) ≡ true
        → is_takeover ((after sys log).terms t).pending ≡ false
        → path_of (after sys log) t
        ≡ (attempt sys t start (committed_files sys (after sys log)) unit.restarts
        (answers_after sys log t)).path }
{}

/// In a run of a deck a unit that commits leaves what it would leave alone: behind its COMMIT, and
/// behind the reply of a unit that is one SEND, the committed records are the files of its attempt
/// on the committed records just before.
pub fn commit_laws()
    ensures commit { (sys : Behaviour) → IsBehaviour sys → (log : List Event) (t n : ℕ)
        → IsRun sys (log ++ Commit t n ∷ [])
        → CommitsAlone sys (after sys log) (after sys (log ++ Commit t n ∷ [])) t
        (answers_after sys log t) }
    ensures send { (sys : Behaviour) → IsBehaviour sys → (log : List Event) (c i t : ℕ)
        → IsRun sys (log ++ Reply c i t None ∷ []) → is_outside (path_of (after sys log) t) ≡ true
        → CommitsAlone sys (after sys log) (after sys (log ++ Reply c i t None ∷ [])) t
        (answers_after sys log t + 1) }
{}
