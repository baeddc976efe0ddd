ghost use Rattle.std.specs.Prelude.{◌≡◌, ℕ, List, Some, slice_get};
ghost use Rattle.pw_code.specs.declared.system.System.{System};
ghost use Rattle.pw_code.specs.declared.system.TermInfo.{TermInfo};
ghost use Rattle.pw_event.specs.declared.event.Cause.{Cause};
ghost use Rattle.pw_event.specs.declared.script.FailLine.{FailLine};
ghost use Rattle.pw_code_meaning.specs.OfSystem.{behaviour};
ghost use Rattle.pw_world_state.specs.Changes.{kept_restart};
ghost use Rattle.pw_world_state.specs.Kept.{Kept};
ghost use Rattle.pw_world_state.specs.Stands.{Stands};
ghost use Rattle.pw_paired.specs.Failure.{LegalRestart, do_restart};
ghost use Rattle.pw_paired.specs.State.{State};

/// RESTART: what is kept stands for the state behind the entry. The terminal goes on with the
/// context of its start.
pub fn restart_laws()
    ensures restart { (system : System) (script : List FailLine) (state : State) (kept : Kept)
        (t n : ℕ) (cause : Cause)
        (terminal : TermInfo) → Stands system script state kept
        → slice_get system.terminals t ≡ Some terminal
        → LegalRestart (behaviour script system) state t n cause
        → Stands system script (do_restart (behaviour script system) t cause state)
        (kept_restart t n cause kept) }
{}
