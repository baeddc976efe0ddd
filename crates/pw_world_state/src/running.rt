ghost use Rattle.std.specs.Prelude.{◌≡◌, ℕ, List, Some, slice_get};
ghost use Rattle.pw_code.specs.declared.context.Context.{Context};
ghost use Rattle.pw_code.specs.declared.system.ClassInfo.{ClassInfo};
ghost use Rattle.pw_code.specs.declared.system.System.{System};
ghost use Rattle.pw_code.specs.declared.system.TermInfo.{TermInfo};
ghost use Rattle.pw_code.specs.declared.verb.Verb.{Verb};
ghost use Rattle.pw_event.specs.declared.script.FailLine.{FailLine};
ghost use Rattle.pw_code_meaning.specs.Contexts.{RunsOn};
ghost use Rattle.pw_world_state.specs.Asked.{verb_in};
ghost use Rattle.pw_world_state.specs.Changes.{kept_ran, with_job};
ghost use Rattle.pw_world_state.specs.Kept.{Kept};
ghost use Rattle.pw_world_state.specs.Stands.{Stands};
ghost use Rattle.pw_paired.specs.State.{State};

/// Where a kept context has run on to its next verb, what is kept with it there stands for the same
/// state, and the context asks that verb.
pub fn running_laws()
    ensures terminal { (system : System) (script : List FailLine) (state : State) (kept : Kept)
        (t : ℕ) (info : TermInfo) (old new : Context) (verb : Verb)
        → Stands system script state kept → slice_get system.terminals t ≡ Some info
        → (kept.terminals t).context ≡ Some old → RunsOn system old new verb
        → Stands system script state (kept_ran t new kept) × (verb_in system new ≡ verb) }
    ensures process { (system : System) (script : List FailLine) (state : State) (kept : Kept)
        (c i : ℕ) (info : ClassInfo) (old new : Context) (verb : Verb)
        → Stands system script state kept → slice_get system.classes c ≡ Some info
        → kept.jobs c i ≡ Some old → RunsOn system old new verb
        → Stands system script state (with_job c i (Some new) kept)
        × (verb_in system new ≡ verb) }
{}
