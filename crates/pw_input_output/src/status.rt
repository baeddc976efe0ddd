ghost use Rattle.std.specs.Prelude.{◌≡◌};
ghost use Rattle.pw_input_output.specs.Numbers.{status_number};

/// How a call of the program ends (docs/guide/COMMANDS.md).
#[derive(Clone, Copy, Debug, PartialEq, Eq)]
pub enum Status {
    /// Every terminal has ended, each STOPPED or NOENTRIES; the log of the deck is a run; the deck or
    /// the schedule has no fault; or the deck is generated. What was asked for is written.
    Finished,
    /// Every terminal has ended, and one otherwise. The report is written.
    Irregular,
    /// The deck, its disc script or the schedule has a fault. Its line is written.
    Refused,
    /// The log has as many entries as it may, and is not finished. The report is written.
    Limit,
    /// The source failed. Nothing is written.
    ReadFault,
    /// The sink failed. A beginning of the text is written.
    WriteFault,
    /// Memory ran out. Nothing is written.
    Memory,
    /// The words are not the command's. The usage line is written.
    Usage,
    /// An entry of the deck's log is no step. Its number is written.
    NotAStep,
    /// The disc failed. Nothing is written.
    DiscFault,
}

impl Status {
    /// The exit status: 0 to 9, in the order of the variants.
    pub fn number(self) -> u8
        ensures { result ≡ status_number self }
    {
        match self {
            Status::Finished => 0,
            Status::Irregular => 1,
            Status::Refused => 2,
            Status::Limit => 3,
            Status::ReadFault => 4,
            Status::WriteFault => 5,
            Status::Memory => 6,
            Status::Usage => 7,
            Status::NotAStep => 8,
            Status::DiscFault => 9,
        }
    }
}
