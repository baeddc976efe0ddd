ghost use Rattle.std.specs.Prelude.{◌≡◌, ℕ, List, [], ◌∷◌, ◌++◌, map, Some, slice_get, true};
ghost use Rattle.pw_code.specs.declared.context.Context.{Context};
ghost use Rattle.pw_code.specs.declared.system.ClassInfo.{ClassInfo};
ghost use Rattle.pw_code.specs.declared.system.System.{System};
ghost use Rattle.pw_code.specs.declared.system.TermInfo.{TermInfo};
ghost use Rattle.pw_code.specs.declared.verb.Verb.{Verb};
ghost use Rattle.pw_event.specs.declared.script.FailLine.{FailLine};
ghost use Rattle.pw_code_meaning.specs.Config.{closed, starting};
ghost use Rattle.pw_code_meaning.specs.Contexts.{RunsOn, PutsAnswer};
ghost use Rattle.pw_code_meaning.specs.OfSystem.{behaviour, told};
ghost use Rattle.pw_code_meaning.specs.Runs.{StandsFor};
ghost use Rattle.pw_world_state.specs.Arrivals.{IsReady, StandsForPath};
ghost use Rattle.pw_world_state.specs.Changes.{kept_again, kept_key, kept_ran, kept_show, with_job};
ghost use Rattle.pw_world_state.specs.Kept.{Kept};
ghost use Rattle.pw_world_state.specs.Stands.{Stands, StandsForJob};
ghost use Rattle.pw_onecopy.specs.Path.{Entry, PathAnswer, Replied, Shown};
ghost use Rattle.pw_paired.specs.State.{Job, State};
ghost use Rattle.pw_paired.specs.Terminal.{LegalAgain, LegalKey, LegalShow, do_again, do_key, do_show, kept_reply, path_of};

/// A program that runs on to its next verb is ready there, and one that is ready and takes an
/// answer is behind it. A path has one context at its last answer and one at its next verb.
pub fn path_laws()
    ensures starts { (system : System) (terminal : TermInfo)
        → StandsForPath system terminal [] (closed (starting system terminal.program)) }
    ensures runs { (system : System) (terminal : TermInfo) (path : List PathAnswer)
        (old new : Context) (verb : Verb)
        → StandsForPath system terminal path old → RunsOn system old new verb
        → IsReady system terminal path new }
    ensures answered { (system : System) (terminal : TermInfo) (path : List PathAnswer)
        (answer : PathAnswer)
        (old new : Context) → IsReady system terminal path old → PutsAnswer system
        (told terminal.entries answer) old new
        → StandsForPath system terminal (path ++ answer ∷ []) new }
    ensures one { (system : System) (terminal : TermInfo) (path : List PathAnswer) (a b : Context)
        → StandsForPath system terminal path a → StandsForPath system terminal path b → a ≡ b }
    ensures one_ready { (system : System) (terminal : TermInfo) (path : List PathAnswer)
        (a b : Context)
        → IsReady system terminal path a → IsReady system terminal path b → a ≡ b }
    ensures at_verb { (system : System) (terminal : TermInfo) (path : List PathAnswer)
        (context : Context)
        → IsReady system terminal path context → context.at_verb ≡ true }
    ensures stands { (system : System) (terminal : TermInfo) (path : List PathAnswer)
        (context : Context)
        → StandsForPath system terminal path context
        → StandsFor system terminal.program (map (told terminal.entries) path) context }
    ensures ready { (system : System) (terminal : TermInfo) (path : List PathAnswer)
        (context : Context)
        → IsReady system terminal path context
        → StandsFor system terminal.program (map (told terminal.entries) path) context }
{}

/// No entry: where a program has run on to its next verb, what is kept stands for the same state.
pub fn ran_laws()
    ensures terminal { (system : System) (script : List FailLine) (state : State) (kept : Kept)
        (t : ℕ)
        (terminal : TermInfo) (new : Context) → Stands system script state kept
        → slice_get system.terminals t ≡ Some terminal → IsReady system terminal
        (path_of state t) new
        → Stands system script state (kept_ran t new kept) }
    ensures process { (system : System) (script : List FailLine) (state : State) (kept : Kept)
        (c i : ℕ) (info : ClassInfo)
        (job : Job) (new : Context) → Stands system script state kept
        → slice_get system.classes c ≡ Some info
        → (state.classes c).busy i ≡ Some job → StandsForJob system info job new
        → Stands system script state (with_job c i (Some new) kept) }
{}

/// SHOW, KEY and AGAIN: where the new context stands for the path with the answer, what is kept
/// stands for the state behind the entry.
pub fn answer_laws()
    ensures show { (system : System) (script : List FailLine) (state : State) (kept : Kept)
        (t phase attempt k : ℕ)
        (terminal : TermInfo) (new : Context) → Stands system script state kept
        → slice_get system.terminals t ≡ Some terminal
        → LegalShow (behaviour script system) state t phase attempt k
        → StandsForPath system terminal (path_of state t ++ Shown ∷ []) new
        → Stands system script (do_show t state) (kept_show t new kept) }
    ensures key { (system : System) (script : List FailLine) (state : State) (kept : Kept) (t k : ℕ)
        (terminal : TermInfo) (new : Context) → Stands system script state kept
        → slice_get system.terminals t ≡ Some terminal → LegalKey
        (behaviour script system) state t k
        → StandsForPath system terminal (path_of state t ++ Entry k ∷ []) new
        → Stands system script (do_key t k state) (kept_key t new kept) }
    ensures again { (system : System) (script : List FailLine) (state : State) (kept : Kept)
        (t n : ℕ)
        (terminal : TermInfo) (new : Context) → Stands system script state kept
        → slice_get system.terminals t ≡ Some terminal → LegalAgain
        (behaviour script system) state t n
        → StandsForPath system terminal (path_of state t ++ Replied (kept_reply
        (state.ended t)) ∷ []) new
        → Stands system script (do_again t state) (kept_again t new kept) }
{}
