//! The setup of a deck.

ghost use Rattle.std.specs.Prelude.{◌≡◌, ◌≤◌, All, length};
ghost use Rattle.pw_code.specs.Limits.{most_fail_lines};
ghost use Rattle.pw_code.specs.Valid.{IsValid};
ghost use Rattle.pw_code_meaning.specs.OfSystem.{behaviour};
ghost use Rattle.pw_compiled_deck.specs.Named.{IsFailNamed};
ghost use Rattle.pw_onecopy.specs.IsBehaviour.{IsBehaviour};

use pw_code::system::System;
use pw_event::script::Script;
use pw_read_back::failures::failure_laws;
use pw_world_state::setup::Setup;

/// The setup of a deck that was read, by what `read` says of its system and its failure lines.
pub fn setup_of(system: System, script: Script) -> Setup
    requires valid { IsValid system }
    requires behaves { IsBehaviour (behaviour script.lines system) }
    requires lines { All (IsFailNamed system) script.lines }
    requires few { length script.lines ≤ most_fail_lines }
    ensures { result ≡ record { system = system; script = script.lines } }
{
    failure_laws();
    Setup::new(system, script)
}
