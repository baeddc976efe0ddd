ghost use Rattle.std.specs.Prelude.{◌<◌, ℕ, Bool, List, length};
ghost use Rattle.pw_code.specs.declared.system.System.{System};
ghost use Rattle.pw_event.specs.declared.script.FailLine.{FailLine};
ghost use Rattle.pw_code_meaning.specs.OfSystem.{behaviour};
ghost use Rattle.pw_world_state.specs.Changes.{kept_fail_tcp};
ghost use Rattle.pw_world_state.specs.Kept.{Kept};
ghost use Rattle.pw_world_state.specs.Members.{AreOf, KnowsAll};
ghost use Rattle.pw_world_state.specs.Stands.{Stands};
ghost use Rattle.pw_paired.specs.Failure.{do_fail_tcp};
ghost use Rattle.pw_paired.specs.State.{State};
ghost use Rattle.pw_tmf.specs.Leaving.{CanLeave};

/// FAIL TCP: what is kept stands for the state behind the entry.
pub fn failure_laws()
    ensures fails { (system : System) (script : List FailLine) (state : State) (kept : Kept)
        (p : ℕ) (primary : Bool)
        (terminals : List ℕ) → Stands system script state kept → p < length system.tcps
        → AreOf system p terminals
        → KnowsAll (behaviour script system) state → CanLeave (behaviour script system) state
        → Stands system script (do_fail_tcp (behaviour script system) p primary state)
        (kept_fail_tcp p primary terminals kept) }
{}
