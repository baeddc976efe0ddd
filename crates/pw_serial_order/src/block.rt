use pw_event::event::Ending;

/// How an attempt of a unit is over.
#[derive(Clone, Copy, Debug, PartialEq, Eq)]
pub enum How {
    /// Its unit has ended, and its changes stay.
    Commit,
    /// Its program dropped it: its unit has ended without effect.
    Dropped,
    /// Its unit begins anew.
    Restart,
    /// Its unit has ended without effect, and its terminal ends.
    Left,
}

/// One block of the serial order of a log (docs/reference/DECK.md).
#[derive(Clone, Copy, Debug, PartialEq, Eq)]
pub enum Block {
    /// One answer of this terminal outside units.
    Out(u32),
    /// An attempt of the terminal's unit of this number.
    Ended { terminal: u32, unit: u32, how: How },
    /// The terminal ended so.
    Done(u32, Ending),
}
