ghost use Rattle.std.specs.Prelude.{List, All};
ghost use Rattle.pw_code.specs.declared.system.System.{System};
ghost use Rattle.pw_event.specs.declared.script.FailLine.{FailLine};
ghost use Rattle.pw_world_state.specs.May.{IsLineThere};
ghost use Rattle.pw_compiled_deck.specs.Named.{IsFailNamed};

/// The failure lines of a deck that was read name what is there, as a world of its system takes them.
pub fn failure_laws()
    ensures { (system : System) (lines : List FailLine) → All (IsFailNamed system) lines
        → All (IsLineThere system) lines }
{}
