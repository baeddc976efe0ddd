ghost use Rattle.std.specs.Prelude.{◌≡◌};
ghost use Rattle.pw_code_meaning.specs.Reading.{registers_of, register_value};

use pw_code::context::Context;
use pw_code::place::Register;

/// The registers as an instruction reads them.
#[derive(Clone, Copy, Debug, PartialEq, Eq)]
pub struct MachineRegisters {
    pub termination: u16,
    pub restarts: u32,
    pub file_status: u16,
}

impl MachineRegisters {
    ghost use Rattle.pw_machine.specs.Views.{registers_by};

    /// Those of a context.
    pub fn of(context: &Context) -> MachineRegisters
        ensures { registers_by result ≡ registers_of context.now }
    {
        MachineRegisters {
            termination: context.termination,
            restarts: context.restarts,
            file_status: context.file_status,
        }
    }

    /// The value of one.
    pub fn value(self, register: Register) -> u32
        ensures { result ≡ register_value (registers_by self) register }
    {
        match register {
            Register::Termination => self.termination as u32,
            Register::Restarts => self.restarts,
            Register::FileStatus => self.file_status as u32,
        }
    }
}
