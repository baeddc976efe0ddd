/// A cause that is pending for a terminal.
#[derive(Clone, Copy, Debug, PartialEq, Eq)]
pub enum Pending {
    Nothing,
    /// Its pair was taken over while an attempt of its unit ran.
    Takeover,
    /// The process at work for it failed.
    Server,
}

/// A terminal's unit, as far as its next step depends on it.
#[derive(Clone, Copy, Debug, PartialEq, Eq)]
pub struct Terminal {
    /// One more than the number of units ended on its path.
    pub unit: u32,
    /// Whether an attempt of the unit runs.
    pub running: bool,
    /// The recorded restarts of the unit, 0 where it is not open.
    pub restarts: u32,
    /// Whether the unit awaits another one that has not ended.
    pub awaited_open: bool,
    pub pending: Pending,
    /// Whether its request waits at a class or is at a process.
    pub request_out: bool,
    /// Whether an entry line is left that is not on its path.
    pub entries_left: bool,
}

/// What its pair and TMF have of a terminal.
#[derive(Clone, Copy, Debug, PartialEq, Eq)]
pub struct Note {
    /// Whether the pair is Paired.
    pub paired: bool,
    /// Whether a checkpoint message of the terminal is in flight.
    pub in_flight: bool,
    /// Whether the backup holds the unit's number and the terminal's path as its start path.
    pub start_held: bool,
    /// Whether the backup holds, as its end path, the path with the answer that ends the transaction here.
    pub end_held: bool,
    /// The number of the terminal's last ended unit at TMF, 0 where none has ended.
    pub ended: u32,
}
