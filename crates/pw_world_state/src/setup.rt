ghost use Rattle.std.specs.Prelude.{◌≡◌, ◌-◌, ◌<◌, ◌^◌, All, length};
ghost use Rattle.pw_code.specs.Valid.{IsValid};
ghost use Rattle.pw_code_meaning.specs.OfSystem.{behaviour};
ghost use Rattle.pw_onecopy.specs.IsBehaviour.{IsBehaviour};
ghost use Rattle.pw_world_state.specs.Setups.{IsSetup};
ghost use Rattle.pw_world_state.specs.May.{IsLineThere};

use pw_code::system::System;
use pw_event::script::Script;
use std::marker::Model;

/// A system and its failure lines, which the paired system may run: the system is valid and behaves as the system of a
/// deck does, and each failure line names what it has.
#[derive(Debug, Drop)]
pub struct Setup {
    system: System,
    script: Script,
}

impl Model for Setup {
    ghost use Rattle.pw_world_state.specs.Setups.{IsSetup as CanRun, SetupState};

    ghost Value = { SetupState };

    ghost view = { λ setup. record { system = setup.system; script = setup.script.lines } };

    ghost invariant = { λ setup. CanRun setup.system setup.script.lines };
}

impl Setup {
    /// The setup of a system and its failure lines.
    pub fn new(system: System, script: Script) -> Setup
        requires valid { IsValid system }
        requires deck { IsBehaviour (behaviour script.lines system) }
        requires lines { All (IsLineThere system) script.lines }
        requires few { length script.lines < 2 ^ 32 - 1 }
        ensures { result ≡ record { system = system; script = script.lines } }
    {
        Setup { system, script }
    }

    /// The system.
    pub fn system(&self) -> &System
        ensures system { result.now ≡ self.now.system }
        ensures valid { IsValid result.now }
    {
        &self.system
    }

    /// The system and the failure lines.
    pub fn into_parts(self) -> (System, Script)
        ensures system { result.0 ≡ self.system }
        ensures script { result.1.lines ≡ self.script }
        ensures valid { IsValid result.0 }
        ensures deck { IsBehaviour (behaviour result.1.lines result.0) }
        ensures lines { All (IsLineThere result.0) result.1.lines }
        ensures few { length result.1.lines < 2 ^ 32 - 1 }
    {
        let Setup { system, script } = self;
        (system, script)
    }

    /// Shows what is known of it. It does nothing.
    pub fn holds(&self)
        ensures { IsSetup self.now.system self.now.script }
    {
        let _system = &self.system;
    }

    /// Lets go of it, so that no caller has to prove what frees a system.
    pub fn let_go(self) {}
}
