ghost use Rattle.std.specs.Prelude.{◌≡◌, ◌≢◌, ◌≤◌, ◌<◌, ◌++◌, ◌∷◌, ◌↔◌, [], ℕ, List, Some, true};
ghost use Rattle.pw_event.specs.declared.event.Event.{Event};
ghost use Rattle.pw_onecopy.specs.Behaviour.{Behaviour};
ghost use Rattle.pw_onecopy.specs.IsBehaviour.{IsBehaviour};
ghost use Rattle.pw_paired.specs.Headline.{EndsOnce};
ghost use Rattle.pw_paired.specs.State.{OpenUnit, State};
ghost use Rattle.pw_paired.specs.Step.{IsRun, Legal, Steps, after, is_finished, line_due, line_wanted};

/// A run one entry longer is a run and a step behind it. A finished log has no step. An entry is
/// the FAIL entry of a line exactly where this line is due for the entry's pair or class.
pub fn step_laws()
    ensures run { (sys : Behaviour) (log : List Event) (entry : Event)
        → IsRun sys (log ++ entry ∷ [])
        ↔ (IsRun sys log × Steps sys (after sys log) entry (after sys (log ++ entry ∷ []))) }
    ensures finished { (sys : Behaviour) (state : State) (entry : Event)
        → is_finished sys state ≡ true → ¬ Legal sys state entry }
    ensures due { (sys : Behaviour) (state : State) (entry : Event) (k : ℕ) → Legal sys state entry
        → (line_due sys state entry ≡ Some k) ↔ (line_wanted entry ≡ Some k) }
{}

/// Behind a log the births of open units differ and lie below the next one.
pub fn birth_laws()
    ensures below { (sys : Behaviour) (log : List Event) (t : ℕ) (unit : OpenUnit)
        → (after sys log).units t ≡ Some unit → unit.birth < (after sys log).births }
    ensures apart { (sys : Behaviour) (log : List Event) (t o : ℕ) (unit other : OpenUnit) → t ≢ o
        → (after sys log).units t ≡ Some unit → (after sys log).units o ≡ Some other
        → unit.birth ≢ other.birth }
{}

/// In a run of a deck TMF's last ended unit of a terminal never falls, and each unit number of a
/// terminal ends at most once.
pub fn ending_laws()
    ensures rises { (sys : Behaviour) → IsBehaviour sys → (log more : List Event)
        → IsRun sys (log ++ more) → (t : ℕ)
        → ((after sys log).ended t).number ≤ ((after sys (log ++ more)).ended t).number }
    ensures once { (sys : Behaviour) → IsBehaviour sys → (log : List Event) → IsRun sys log
        → EndsOnce sys log }
{}
