ghost use Rattle.std.specs.Prelude.{◌≡◌, ℕ, List, Some};
ghost use Rattle.pw_code.specs.Valid.{IsValid};
ghost use Rattle.pw_code.specs.declared.context.Context.{Context};
ghost use Rattle.pw_code.specs.declared.system.System.{System};
ghost use Rattle.pw_event.specs.declared.event.Event.{Event};
ghost use Rattle.pw_event.specs.declared.script.FailLine.{FailLine};
ghost use Rattle.pw_code_meaning.specs.OfSystem.{behaviour};
ghost use Rattle.pw_onecopy.specs.IsBehaviour.{IsBehaviour};
ghost use Rattle.pw_paired.specs.Step.{IsRun, after};
ghost use Rattle.pw_tcp.specs.Entries.{step_entry};
ghost use Rattle.pw_tcp.specs.InState.{next_step_in};
ghost use Rattle.pw_tcp.specs.declared.step.TcpStep.{TcpStep};
ghost use Rattle.pw_world_state.specs.Kept.{Kept};
ghost use Rattle.pw_world_state.specs.NextSteps.{MayStepAt, entry_at, next_step_at, standing};
ghost use Rattle.pw_world_state.specs.Read.{ClosedValues, OwnValues};
ghost use Rattle.pw_world_state.specs.Stands.{Stands};

/// In every run of a deck: the next step of a terminal whose program stands at its verb is by what is kept that of the
/// state, and names the same entry; and what it takes of what is kept holds. The contexts of which images are compared
/// have numbers and characters of their types.
pub fn next_laws()
    ensures step { (system : System) (script : List FailLine) (log : List Event) (kept : Kept) (t : ℕ)
        (context : Context) → IsValid system → IsBehaviour (behaviour script system)
        → IsRun (behaviour script system) log
        → Stands system script (after (behaviour script system) log) kept
        → standing system kept t ≡ Some context → OwnValues kept t → ClosedValues system kept t
        → next_step_at system kept t context
        ≡ next_step_in (behaviour script system) (after (behaviour script system) log) t }
    ensures entry { (system : System) (script : List FailLine) (log : List Event) (kept : Kept) (t : ℕ)
        (context : Context) → IsValid system → IsBehaviour (behaviour script system)
        → IsRun (behaviour script system) log
        → Stands system script (after (behaviour script system) log) kept
        → standing system kept t ≡ Some context → (step : TcpStep)
        → entry_at system kept t context step
        ≡ step_entry (behaviour script system) (after (behaviour script system) log) t step }
    ensures may { (system : System) (script : List FailLine) (log : List Event) (kept : Kept) (t : ℕ)
        (context : Context) → IsValid system → IsBehaviour (behaviour script system)
        → IsRun (behaviour script system) log
        → Stands system script (after (behaviour script system) log) kept
        → standing system kept t ≡ Some context → OwnValues kept t → ClosedValues system kept t
        → MayStepAt system kept t context }
{}
