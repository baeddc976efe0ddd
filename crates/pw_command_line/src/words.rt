ghost use Rattle.std.specs.Prelude.{◌≡◌};

use std::alloc::AllocError;

/// What the program is asked to do (docs/guide/COMMANDS.md).
#[derive(Clone, Copy, Debug, PartialEq, Eq)]
pub enum Command {
    /// Runs a deck, and prints its report.
    Run,
    /// Runs the generated deck, and prints its files.
    Trial,
    /// Tells whether a deck has a fault.
    Check,
    /// Replays the log of a deck.
    Verify,
    /// Makes the generated deck.
    Gen,
    /// Runs a deck over a disc pair.
    Disc,
    /// Runs a deck over an audit trail, which is crashed and recovered.
    Trail,
    /// Prints the status text of the first entries of a log.
    Status,
    /// Plays a schedule of transactions over several systems.
    Expand,
}

/// A command with the values of all options, those that have no meaning for it too.
#[derive(Clone, Copy, Debug, PartialEq, Eq)]
pub struct Words {
    pub command: Command,
    /// How many workers run a deck: 1 to 16.
    pub workers: u8,
    /// How many entries a log may have: 1 to 500,000.
    pub events: u32,
    /// What the entries of a generated deck are drawn from.
    pub seed: u32,
    /// How many terminals a generated deck has: 1 to 64.
    pub terms: u32,
    /// How many entries are taken, or the call of the disk that fails: 0 to 500,000.
    pub at: u32,
}

/// Why there is no command.
#[derive(Clone, Copy, Debug, PartialEq, Eq)]
pub enum WordsFault {
    /// Memory ran out.
    Memory,
    /// The words are not the command's.
    Refused,
}

impl From<AllocError> for WordsFault {
    ghost use Rattle.pw_command_line.specs.declared.words.WordsFault.{WordsFault};

    ghost from_gives = { λ _ fault. fault ≡ WordsFault.Memory };

    fn from(_error: AllocError) -> WordsFault {
        WordsFault::Memory
    }
}
