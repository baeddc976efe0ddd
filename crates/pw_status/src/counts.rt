/// What is counted of a terminal.
#[derive(Clone, Copy, Debug, PartialEq, Eq)]
pub struct TerminalCounts {
    /// Its last ended unit.
    pub units: u32,
    /// Its RESTART entries.
    pub restarts: u32,
    /// The entry lines on its path, none where its path is gone.
    pub entries: u32,
    /// Its different refresh numbers.
    pub shown: u32,
}

/// What is counted of a class.
#[derive(Clone, Copy, Debug, PartialEq, Eq)]
pub struct ClassCounts {
    /// Requests that wait for it.
    pub waiting: u32,
    /// Processes of it that work.
    pub busy: u32,
    /// Its TAKE entries.
    pub taken: u32,
    /// The greatest number that waited at once.
    pub longest: u32,
}

/// What is counted of a file.
#[derive(Clone, Copy, Debug, PartialEq, Eq)]
pub struct FileCounts {
    /// Its records, with open changes.
    pub records: u64,
    /// The locks on it: each FILE entry of an attempt that still runs has one.
    pub locks: u64,
}

/// What is counted of units.
#[derive(Clone, Copy, Debug, PartialEq, Eq)]
pub struct UnitCounts {
    /// BEGIN entries.
    pub begun: u32,
    /// Attempts that have committed.
    pub committed: u32,
    /// Attempts that were dropped.
    pub dropped: u32,
    /// Attempts that were left, so far as entries tell.
    pub left: u64,
    /// RESTART entries with the cause OLDER.
    pub older: u32,
    /// RESTART entries with the cause TAKEOVER.
    pub takeover: u32,
    /// RESTART entries with the cause SERVER.
    pub server: u32,
    /// RESTART entries with the cause REDO.
    pub redo: u32,
}
