ghost use Rattle.std.specs.Prelude.{◌≡◌, ℕ, List, [], Some, slice_get};
ghost use Rattle.pw_code.specs.declared.context.Context.{Context};
ghost use Rattle.pw_code.specs.declared.system.System.{System};
ghost use Rattle.pw_code.specs.declared.system.TermInfo.{TermInfo};
ghost use Rattle.pw_event.specs.declared.script.FailLine.{FailLine};
ghost use Rattle.pw_code_meaning.specs.OfSystem.{behaviour};
ghost use Rattle.pw_world_state.specs.Arrivals.{StandsForPath};
ghost use Rattle.pw_world_state.specs.Changes.{kept_start};
ghost use Rattle.pw_world_state.specs.Members.{AreOf};
ghost use Rattle.pw_world_state.specs.Stands.{Stands};
ghost use Rattle.pw_paired.specs.State.{starting};
ghost use Rattle.pw_tmf.specs.Tells.{Tells};
ghost use Rattle.pw_tmf.specs.Told.{Told};

/// Before the first entry what is kept stands for the starting state: each terminal has a context
/// that stands for the empty path, each pair has its terminals, and the disc tells the system's
/// files and no unit.
pub fn start_laws()
    ensures start { (system : System) (script : List FailLine) (members : ℕ → List ℕ) (contexts : ℕ
        → Context) (disc : Told)
        → ((t : ℕ) (info : TermInfo) → slice_get system.terminals t ≡ Some info
        → StandsForPath system info [] (contexts t))
        → ((p : ℕ) → AreOf system p (members p))
        → Tells (behaviour script system) (starting (behaviour script system)) disc
        → Stands system script (starting (behaviour script system))
        (kept_start system members contexts disc) }
{}
