ghost use Rattle.std.specs.Prelude.{List};
ghost use Rattle.pw_code.specs.declared.system.System.{System};
ghost use Rattle.pw_event.specs.declared.event.Event.{Event};
ghost use Rattle.pw_event.specs.declared.script.FailLine.{FailLine};
ghost use Rattle.pw_world_state.specs.Kept.{Kept};
ghost use Rattle.pw_world_state.specs.Stands.{Stands};
ghost use Rattle.pw_paired.specs.State.{State};

/// What is kept stands for a state whatever its log is.
pub fn log_laws()
    ensures log { (system : System) (script : List FailLine) (state : State) (kept : Kept)
        (log : List Event)
        → Stands system script state kept → Stands system script (record state { log = log }) kept }
{}
