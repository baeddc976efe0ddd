ghost use Rattle.std.specs.Prelude.{◌≡◌, ◌<◌, ℕ, List, false, length};
ghost use Rattle.pw_code.specs.declared.system.System.{System};
ghost use Rattle.pw_event.specs.declared.script.FailLine.{FailLine};
ghost use Rattle.pw_code_meaning.specs.OfSystem.{behaviour};
ghost use Rattle.pw_world_state.specs.Changes.{kept_takeover};
ghost use Rattle.pw_world_state.specs.Kept.{Kept};
ghost use Rattle.pw_world_state.specs.Members.{AreOf};
ghost use Rattle.pw_world_state.specs.Stands.{Stands};
ghost use Rattle.pw_paired.specs.Failure.{LegalTakeover, do_takeover};
ghost use Rattle.pw_paired.specs.Raising.{lacks_one};
ghost use Rattle.pw_paired.specs.State.{State};

/// TAKEOVER: what is kept stands for the state behind the entry. The backup holds each live
/// terminal of the pair, and the terminals go on with the contexts that are read from the images
/// held.
pub fn takeover_laws()
    ensures takeover { (system : System) (script : List FailLine) (state : State) (kept : Kept)
        (p : ℕ) (terminals : List ℕ)
        → Stands system script state kept → LegalTakeover state p → p < length system.tcps
        → AreOf system p terminals
        → lacks_one (behaviour script system) p state ≡ false
        → Stands system script (do_takeover (behaviour script system) p state)
        (kept_takeover p terminals kept) }
{}
