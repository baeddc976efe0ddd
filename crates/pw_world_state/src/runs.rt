ghost use Rattle.std.specs.Prelude.{◌≡◌, ℕ, List, [], ◌∷◌, ◌++◌, Some, false};
ghost use Rattle.pw_code.specs.declared.system.System.{System};
ghost use Rattle.pw_event.specs.declared.event.Event.{Event};
ghost use Rattle.pw_event.specs.declared.script.FailLine.{FailLine};
ghost use Rattle.pw_code_meaning.specs.OfSystem.{behaviour};
ghost use Rattle.pw_world_state.specs.Entered.{entered};
ghost use Rattle.pw_world_state.specs.Kept.{Kept};
ghost use Rattle.pw_world_state.specs.Members.{AreOf, KnowsAll, RunsFor};
ghost use Rattle.pw_world_state.specs.Needs.{Needs};
ghost use Rattle.pw_world_state.specs.Stands.{Stands};
ghost use Rattle.pw_onecopy.specs.Behaviour.{Behaviour};
ghost use Rattle.pw_onecopy.specs.IsBehaviour.{IsBehaviour};
ghost use Rattle.pw_paired.specs.Raising.{lacks_one};
ghost use Rattle.pw_paired.specs.State.{Down, Job, OpenUnit};
ghost use Rattle.pw_paired.specs.Step.{IsRun, Legal, after};
ghost use Rattle.pw_paired.specs.Terminal.{LegalBegin};
ghost use Rattle.pw_tmf.specs.Leaving.{CanLeave};

/// What the laws of failures, endings and takeovers ask of states holds in every run of a deck:
/// units and requests are those of started terminals, units can be left in any order, a backup that
/// is to take over has each live terminal of its pair, a unit begins again with its number, and
/// servers work for running attempts that ask for it.
pub fn run_laws()
    ensures knows { (sys : Behaviour) → IsBehaviour sys → (log : List Event) → IsRun sys log
        → KnowsAll sys (after sys log) }
    ensures leaves { (sys : Behaviour) → IsBehaviour sys → (log : List Event) → IsRun sys log
        → CanLeave sys (after sys log) }
    ensures whole { (sys : Behaviour) → IsBehaviour sys → (log : List Event) → IsRun sys log →
        (p : ℕ)
        → (after sys log).modes p ≡ Down → lacks_one sys p (after sys log) ≡ false }
    ensures begins { (sys : Behaviour) → IsBehaviour sys → (log : List Event) → IsRun sys log →
        (t n r : ℕ)
        → LegalBegin sys (after sys log) t n r → (own : OpenUnit) →
        (after sys log).units t ≡ Some own
        → own.number ≡ n }
    ensures serves { (sys : Behaviour) → IsBehaviour sys → (log : List Event) → IsRun sys log →
        (c i : ℕ) (job : Job)
        → ((after sys log).classes c).busy i ≡ Some job → RunsFor sys (after sys log) c job }
{}

/// In every run of a deck: where an entry is legal and what it needs is there, what is computed
/// from what was kept stands for the state behind it. The lists have the terminals of each pair.
pub fn next_laws()
    ensures { (system : System) (script : List FailLine) (members : ℕ → List ℕ) (log : List Event)
        (kept : Kept)
        (entry : Event) → IsBehaviour (behaviour script system) → IsRun
        (behaviour script system) log
        → ((p : ℕ) → AreOf system p (members p))
        → Stands system script (after (behaviour script system) log) kept
        → Legal (behaviour script system) (after (behaviour script system) log) entry
        → Needs system script (after (behaviour script system) log) kept entry
        → Stands system script (after (behaviour script system) (log ++ entry ∷ []))
        (entered system members entry kept) }
{}
