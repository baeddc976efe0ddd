ghost use Rattle.std.specs.Prelude.{◌≡◌, ℕ, List, [], ◌∷◌, ◌++◌, Some, slice_get};
ghost use Rattle.pw_code.specs.declared.context.Context.{Context};
ghost use Rattle.pw_code.specs.declared.system.System.{System};
ghost use Rattle.pw_code.specs.declared.system.TermInfo.{TermInfo};
ghost use Rattle.pw_code.specs.declared.verb.Verb.TheVariants as verb;
ghost use Rattle.pw_event.specs.declared.script.FailLine.{FailLine};
ghost use Rattle.pw_code_meaning.specs.OfSystem.{behaviour};
ghost use Rattle.pw_world_state.specs.Arrivals.{StandsForPath};
ghost use Rattle.pw_world_state.specs.Changes.{kept_back, kept_begin, kept_begin_send, kept_commit, kept_send};
ghost use Rattle.pw_world_state.specs.Kept.{Kept};
ghost use Rattle.pw_world_state.specs.Stands.{Stands};
ghost use Rattle.pw_onecopy.specs.Path.{Begun, Dropped, Ended};
ghost use Rattle.pw_paired.specs.State.{OpenUnit, State};
ghost use Rattle.pw_paired.specs.Terminal.{LegalBack, LegalBegin, LegalCommit, LegalSend, do_back, do_begin, do_commit, do_send, message_of, next_verb, path_of};

/// BEGIN, SEND, COMMIT and BACK: what is kept stands for the state behind the entry. A unit that is
/// open has the number that it begins again with. BEGIN of a transaction is given the context
/// behind Begin; that of one SEND changes no path.
pub fn unit_laws()
    ensures begin { (system : System) (script : List FailLine) (state : State) (kept : Kept)
        (t n r : ℕ)
        (terminal : TermInfo) (next : Context) → Stands system script state kept
        → slice_get system.terminals t ≡ Some terminal → LegalBegin
        (behaviour script system) state t n r
        → ((own : OpenUnit) → state.units t ≡ Some own → own.number ≡ n)
        → next_verb (behaviour script system) state t ≡ verb.Begin
        → StandsForPath system terminal (path_of state t ++ Begun r ∷ []) next
        → Stands system script (do_begin (behaviour script system) t n r state)
        (kept_begin t n next kept) }
    ensures begin_send { (system : System) (script : List FailLine) (state : State) (kept : Kept)
        (t n r c : ℕ)
        (message : List ℕ) (terminal : TermInfo) → Stands system script state kept
        → slice_get system.terminals t ≡ Some terminal → LegalBegin
        (behaviour script system) state t n r
        → ((own : OpenUnit) → state.units t ≡ Some own → own.number ≡ n)
        → next_verb (behaviour script system) state t ≡ verb.Send c message
        → Stands system script (do_begin (behaviour script system) t n r state)
        (kept_begin_send t n kept) }
    ensures send { (system : System) (script : List FailLine) (state : State) (kept : Kept)
        (t n c : ℕ)
        (message : List ℕ) → Stands system script state kept → LegalSend
        (behaviour script system) state t n c
        → message ≡ message_of (next_verb (behaviour script system) state t)
        → Stands system script (do_send (behaviour script system) t n c state)
        (kept_send t n c message kept) }
    ensures commit { (system : System) (script : List FailLine) (state : State) (kept : Kept)
        (t n : ℕ)
        (terminal : TermInfo) (new : Context) → Stands system script state kept
        → slice_get system.terminals t ≡ Some terminal → LegalCommit
        (behaviour script system) state t n
        → StandsForPath system terminal (path_of state t ++ Ended ∷ []) new
        → Stands system script (do_commit t n state) (kept_commit t n new kept) }
    ensures back { (system : System) (script : List FailLine) (state : State) (kept : Kept)
        (t n : ℕ)
        (terminal : TermInfo) (new : Context) → Stands system script state kept
        → slice_get system.terminals t ≡ Some terminal → LegalBack
        (behaviour script system) state t n
        → StandsForPath system terminal (path_of state t ++ Dropped ∷ []) new
        → Stands system script (do_back (behaviour script system) t n state)
        (kept_back t n new kept) }
{}
