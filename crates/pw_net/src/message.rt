/// A transaction: the system that began it, its home, and its number there. Both count from 1.
#[derive(Clone, Copy, Debug, PartialEq, Eq, PartialOrd, Ord)]
pub struct NetId {
    pub home: u32,
    pub number: u32,
}

/// What a message says.
#[derive(Clone, Copy, Debug, PartialEq, Eq)]
pub enum NetWord {
    /// The home asks for a vote.
    Prepare,
    /// A vote to commit.
    Yes,
    /// A vote to abort.
    No,
    /// The home has committed.
    Commit,
    /// The home has aborted.
    Abort,
    /// A prepared system asks how the transaction ended.
    Ask,
}

/// A message from one system to another.
#[derive(Clone, Copy, Debug, PartialEq, Eq)]
pub struct Net {
    pub from: u32,
    pub to: u32,
    pub id: NetId,
    pub word: NetWord,
}

/// How a system stands to a transaction.
#[derive(Clone, Copy, Debug, PartialEq, Eq)]
pub enum Mark {
    /// At its home: votes are missing.
    Collecting,
    /// It has voted yes, and waits for the home's word.
    Prepared,
    Committed,
    Aborted,
}
