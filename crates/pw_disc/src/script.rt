use pw_base::list::List;

/// The most lines that a disc script has.
pub const MAX_DISC_LINES: usize = 64;

/// The most calls behind which a line is due.
pub const MAX_AFTER: u32 = 500_000;

/// The failures of the members of a disc pair, in order.
#[derive(Debug, Drop)]
pub struct DiscScript {
    pub lines: List<DiscLine>,
}

/// One failure of a member, and behind how many calls that were done it is due: 0 to `MAX_AFTER`.
#[derive(Clone, Copy, Debug, PartialEq, Eq)]
pub enum DiscLine {
    /// The primary fails at the start of a call.
    Primary(u32),
    /// The primary fails once it has done a call, before it answers.
    Held(u32),
    /// The backup fails at the start of a call.
    Backup(u32),
}
