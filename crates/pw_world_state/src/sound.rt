ghost use Rattle.std.specs.Prelude.{◌≡◌, ℕ, List, Some, slice_get};
ghost use Rattle.pw_code.specs.Valid.{IsValid};
ghost use Rattle.pw_code.specs.declared.context.Context.{Context};
ghost use Rattle.pw_code.specs.declared.system.ClassInfo.{ClassInfo};
ghost use Rattle.pw_code.specs.declared.system.System.{System};
ghost use Rattle.pw_code.specs.declared.system.TermInfo.{TermInfo};
ghost use Rattle.pw_event.specs.declared.script.FailLine.{FailLine};
ghost use Rattle.pw_code_meaning.specs.Sound.{IsSoundContext};
ghost use Rattle.pw_world_state.specs.Kept.{Kept};
ghost use Rattle.pw_world_state.specs.Stands.{Stands};
ghost use Rattle.pw_paired.specs.State.{State};

/// Each context that is kept is sound, so that it can be run on and answered: that of a terminal at
/// its last answer, at its verb and at the start of its attempt, and that of a server at work.
pub fn sound_laws()
    ensures context { (system : System) (script : List FailLine) (state : State) (kept : Kept)
        (t : ℕ) (info : TermInfo) (context : Context)
        → IsValid system → Stands system script state kept
        → slice_get system.terminals t ≡ Some info
        → (kept.terminals t).context ≡ Some context → IsSoundContext system context }
    ensures ready { (system : System) (script : List FailLine) (state : State) (kept : Kept)
        (t : ℕ) (info : TermInfo) (context : Context)
        → IsValid system → Stands system script state kept
        → slice_get system.terminals t ≡ Some info
        → (kept.terminals t).ready ≡ Some context → IsSoundContext system context }
    ensures start { (system : System) (script : List FailLine) (state : State) (kept : Kept)
        (t : ℕ) (info : TermInfo) (context : Context)
        → IsValid system → Stands system script state kept
        → slice_get system.terminals t ≡ Some info
        → (kept.terminals t).start ≡ Some context → IsSoundContext system context }
    ensures job { (system : System) (script : List FailLine) (state : State) (kept : Kept)
        (c i : ℕ) (info : ClassInfo) (context : Context)
        → IsValid system → Stands system script state kept
        → slice_get system.classes c ≡ Some info
        → kept.jobs c i ≡ Some context → IsSoundContext system context }
{}
