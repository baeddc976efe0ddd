ghost use Rattle.std.specs.Prelude.{◌≡◌, ℕ, List, Some, slice_get};
ghost use Rattle.pw_code.specs.declared.system.System.{System};
ghost use Rattle.pw_code.specs.declared.system.TermInfo.{TermInfo};
ghost use Rattle.pw_event.specs.declared.event.Ending.{Ending};
ghost use Rattle.pw_event.specs.declared.script.FailLine.{FailLine};
ghost use Rattle.pw_code_meaning.specs.OfSystem.{behaviour};
ghost use Rattle.pw_world_state.specs.Changes.{kept_end};
ghost use Rattle.pw_world_state.specs.Kept.{Kept};
ghost use Rattle.pw_world_state.specs.Stands.{Stands};
ghost use Rattle.pw_paired.specs.End.{do_end};
ghost use Rattle.pw_paired.specs.State.{State};
ghost use Rattle.pw_tmf.specs.Leaving.{CanLeave};

/// END, with each ending: what is kept stands for the state behind the entry. An open unit is left
/// but at STOPPED and LOST.
pub fn end_laws()
    ensures end { (system : System) (script : List FailLine) (state : State) (kept : Kept) (t : ℕ)
        (ending : Ending)
        (terminal : TermInfo) → Stands system script state kept
        → slice_get system.terminals t ≡ Some terminal
        → CanLeave (behaviour script system) state
        → Stands system script (do_end (behaviour script system) t ending state)
        (kept_end terminal.tcp t ending kept) }
{}
