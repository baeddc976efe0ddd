use pw_base::list::List;

/// The most failure lines that a script has.
pub const MAX_FAIL_LINES: usize = 64;

/// The most entries after which a failure line is due.
pub const MAX_AFTER: u32 = 500_000;

/// The failures that a deck asks for, in order.
#[derive(Debug, Drop)]
pub struct Script {
    /// At most `MAX_FAIL_LINES`.
    pub lines: List<FailLine>,
}

/// One failure, and after how many entries of its owner it is due: 0 to `MAX_AFTER`.
#[derive(Clone, Copy, Debug, PartialEq, Eq)]
pub enum FailLine {
    /// Of a pair's primary or backup.
    Tcp {
        tcp: u32,
        primary: bool,
        after: u32,
    },
    /// Of a process of a class. Processes count from 1.
    Server {
        class: u32,
        process: u32,
        after: u32,
    },
}

/// Whom an entry of the log, or a failure, belongs to.
#[derive(Clone, Copy, Debug, PartialEq, Eq)]
pub enum Owner {
    /// The pair of this number.
    Tcp(u32),
    /// The class of this number.
    Class(u32),
}
