use pw_code::file::FileOp;
use pw_code::lock::LockMode;

/// Why a unit restarts, or its terminal is suspended.
#[derive(Clone, Copy, Debug, PartialEq, Eq)]
pub enum Cause {
    /// Its locks stand against an older unit: that of this number on this terminal.
    Older { terminal: u32, unit: u32 },
    /// This pair was taken over while the unit ran.
    Takeover(u32),
    /// The process at work for it failed, by the failure line of this number.
    Server(u32),
    /// Its program asked for it.
    Redo,
}

/// How a terminal ended.
#[derive(Clone, Copy, Debug, PartialEq, Eq)]
pub enum Ending {
    /// Its program stopped.
    Stopped,
    /// Its program asked for an entry line, and none was left.
    NoEntries,
    /// Its program had this run fault.
    Fault(u16),
    /// Its unit would have had to restart once more than it may.
    Suspended(Cause),
    /// Both members of its pair failed.
    Lost,
}

/// One entry of the log. Terminals, pairs, classes and files are named by their numbers from 0; entry lines, units,
/// processes and failure lines count from 1, failure lines over the whole script.
#[derive(Clone, Copy, Debug, PartialEq, Eq)]
pub enum Event {
    /// The terminal's screen was shown, as its refresh number `phase.attempt.k`.
    Show {
        terminal: u32,
        phase: u32,
        attempt: u32,
        k: u32,
    },
    /// The terminal took its k-th entry line.
    Key {
        terminal: u32,
        k: u32,
    },
    /// A checkpoint of the path before a unit was sent to the backup.
    CheckStart {
        terminal: u32,
    },
    /// A checkpoint of the path behind a unit was sent to the backup.
    CheckEnd {
        terminal: u32,
    },
    /// A checkpoint for a new backup was sent to it.
    CheckCopy {
        terminal: u32,
    },
    /// The backup took the terminal's checkpoint in.
    Applied {
        terminal: u32,
    },
    /// An attempt of the unit began, after so many restarts.
    Begin {
        terminal: u32,
        unit: u32,
        restarts: u32,
    },
    /// The unit's request was sent to the class.
    Send {
        terminal: u32,
        unit: u32,
        class: u32,
    },
    /// The process took the terminal's request.
    Take {
        class: u32,
        process: u32,
        terminal: u32,
    },
    /// The process did an operation on a file, with this file status. The operation is `Read` or `Next` for the locking
    /// reads too.
    File {
        class: u32,
        process: u32,
        op: FileOp,
        mode: LockMode,
        file: u32,
        status: u16,
    },
    /// The process replied to the terminal, or had a run fault.
    Reply {
        class: u32,
        process: u32,
        terminal: u32,
        fault: Option<u16>,
    },
    /// The terminal got the kept reply of its last unit again.
    Again {
        terminal: u32,
        unit: u32,
    },
    /// The unit ended with its changes.
    Commit {
        terminal: u32,
        unit: u32,
    },
    /// The unit ended without its changes.
    Back {
        terminal: u32,
        unit: u32,
    },
    /// The unit goes back to its start.
    Restart {
        terminal: u32,
        unit: u32,
        cause: Cause,
    },
    /// The pair's primary or backup failed, by the failure line of this number.
    FailTcp {
        tcp: u32,
        primary: bool,
        line: u32,
    },
    /// The process failed, by the failure line of this number.
    FailServer {
        class: u32,
        process: u32,
        line: u32,
    },
    /// The pair's backup went on in place of its primary.
    Takeover {
        tcp: u32,
    },
    /// The pair got a new backup.
    Raise {
        tcp: u32,
    },
    /// The terminal ended.
    End {
        terminal: u32,
        ending: Ending,
    },
}
