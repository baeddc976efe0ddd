ghost use Rattle.std.specs.Prelude.{◌≡◌, ℕ, Some, slice_get, true};
ghost use Rattle.pw_code.specs.Valid.{IsValid};
ghost use Rattle.pw_code.specs.declared.context.Context.{Context};
ghost use Rattle.pw_code.specs.declared.system.ClassInfo.{ClassInfo};
ghost use Rattle.pw_code.specs.declared.system.TermInfo.{TermInfo};
ghost use Rattle.pw_code.specs.declared.system.System.{System};
ghost use Rattle.pw_code.specs.declared.verb.Answer.{Answer};
ghost use Rattle.pw_code_meaning.specs.Sound.{IsSoundContext};
ghost use Rattle.pw_image.specs.Values.{HasValues};
ghost use Rattle.pw_world_state.specs.Asked.{CountsOf, SaysOf, answered_with, verb_in};
ghost use Rattle.pw_world_state.specs.TerminalTests.{can_step, closing};
ghost use Rattle.pw_machine.specs.Stack.{HasRoom};
ghost use Rattle.pw_world_model.specs.Actors.{IsActor};
ghost use Rattle.pw_world_model.specs.Seen.{Seen, state_of, sys_of, work_of};
ghost use Rattle.pw_world_model.specs.Worlds.{Books, IsWorld};
ghost use Rattle.pw_paired.specs.Server.{server_verb};
ghost use Rattle.pw_paired.specs.State.{Job};
ghost use Rattle.pw_paired.specs.Terminal.{path_of};
ghost use Rattle.pw_actor_queue.specs.declared.actor.Actor.{Actor};

/// Each context that a world keeps is sound and has room for one more answer. At a verb it says what
/// its path or its job says, and behind an answer a terminal's counts what its path counts. Behind the
/// answer that ends a transaction its numbers and characters are of their types still.
pub fn context_laws()
    ensures context { (world : Seen) (books : Books) (t : ℕ) (info : TermInfo) (context : Context)
        → IsWorld world books → slice_get world.system.terminals t ≡ Some info
        → (world.kept.terminals t).context ≡ Some context
        → IsSoundContext world.system context × HasRoom context }
    ensures ready { (world : Seen) (books : Books) (t : ℕ) (info : TermInfo) (context : Context)
        → IsWorld world books → slice_get world.system.terminals t ≡ Some info
        → (world.kept.terminals t).ready ≡ Some context
        → IsSoundContext world.system context × HasRoom context }
    ensures start { (world : Seen) (books : Books) (t : ℕ) (info : TermInfo) (context : Context)
        → IsWorld world books → slice_get world.system.terminals t ≡ Some info
        → (world.kept.terminals t).start ≡ Some context
        → IsSoundContext world.system context × HasRoom context }
    ensures job { (world : Seen) (books : Books) (c i : ℕ) (info : ClassInfo) (context : Context)
        → IsWorld world books → slice_get world.system.classes c ≡ Some info
        → world.kept.jobs c i ≡ Some context
        → IsSoundContext world.system context × HasRoom context }
    ensures work { (world : Seen) (books : Books) (actor : Actor) (context : Context)
        → IsWorld world books → IsActor world.system actor → work_of world actor ≡ Some context
        → IsSoundContext world.system context × HasRoom context }
    ensures says { (world : Seen) (books : Books) (t : ℕ) (context : Context)
        → IsWorld world books → can_step world.system world.kept t ≡ true
        → (world.kept.terminals t).ready ≡ Some context
        → SaysOf (sys_of world) world.system t (path_of (state_of world) t) context }
    ensures counts { (world : Seen) (books : Books) (t : ℕ) (info : TermInfo) (context : Context)
        → IsWorld world books → slice_get world.system.terminals t ≡ Some info
        → (world.kept.terminals t).context ≡ Some context
        → CountsOf (path_of (state_of world) t) context }
    ensures closed { (system : System) (context : Context) (a : Answer)
        → IsValid system → IsSoundContext system context → HasRoom context → HasValues context
        → closing (verb_in system context) ≡ Some a
        → HasValues (answered_with system a context) }
    ensures serves { (world : Seen) (books : Books) (c i : ℕ) (job : Job) (context : Context)
        → IsWorld world books → ((state_of world).classes c).busy i ≡ Some job
        → world.kept.jobs c i ≡ Some context → context.at_verb ≡ true
        → verb_in world.system context ≡ server_verb (sys_of world) c job }
{}
