ghost use Rattle.std.specs.Prelude.{◌≡◌, true, false};
ghost use Rattle.pw_operands.specs.Variables.{digits_of, register_of};

use pw_words::table::is_same_word;

/// A register: a whole number without a sign that is part of no program's data. Statements read it,
/// and none puts anything into it.
#[derive(Clone, Copy, Debug, PartialEq, Eq)]
pub enum SpecialRegister {
    /// TERMINATION-STATUS, of requesters.
    TerminationStatus,
    /// RESTART-COUNTER, of requesters.
    RestartCounter,
    /// FILE-STATUS, of servers.
    FileStatus,
}

impl SpecialRegister {
    /// How many digits it has.
    pub fn digits(self) -> u8
        ensures { result ≡ digits_of self }
    {
        match self {
            SpecialRegister::TerminationStatus => 4,
            SpecialRegister::RestartCounter => 5,
            SpecialRegister::FileStatus => 4,
        }
    }
}

/// The register of a name, in either case, in a server or in a requester.
pub fn register_of(server: bool, name: &[u8]) -> Option<SpecialRegister>
    ensures { result ≡ register_of server name.now }
{
    if server {
        server_register(name)
    } else {
        requester_register(name)
    }
}

/// The register of a name in a server.
fn server_register(name: &[u8]) -> Option<SpecialRegister>
    ensures { result ≡ register_of true name.now }
{
    if is_same_word(name, b"FILE-STATUS") {
        Some(SpecialRegister::FileStatus)
    } else {
        None
    }
}

/// The register of a name in a requester.
fn requester_register(name: &[u8]) -> Option<SpecialRegister>
    ensures { result ≡ register_of false name.now }
{
    if is_same_word(name, b"TERMINATION-STATUS") {
        Some(SpecialRegister::TerminationStatus)
    } else if is_same_word(name, b"RESTART-COUNTER") {
        Some(SpecialRegister::RestartCounter)
    } else {
        None
    }
}
