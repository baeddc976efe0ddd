use crate::entry::EntryLine;
use crate::file::FileCall;
use pw_base::bytes::Bytes;

/// What a program asks next. A terminal's program asks what stands before `File`; a server's program asks `File`,
/// `Reply` or `Fault`.
#[derive(Debug, Drop)]
pub enum Verb {
    /// To show the screen.
    Show,
    /// To take the next entry line, for the screen of this number.
    Accept(u32),
    /// To begin a transaction.
    Begin,
    /// To send a message to a server class: inside a transaction for it, and outside as a unit of its own.
    Send { class: u32, message: Bytes },
    /// To end the transaction, with its changes.
    End,
    /// To drop the transaction, without its changes.
    Drop,
    /// To restart the transaction.
    Redo,
    /// To end the terminal's work.
    Stop,
    /// Nothing more: the program has this run fault, 201 to 209.
    Fault(u16),
    /// An operation on a file.
    File(FileCall),
    /// To reply so.
    Reply(Bytes),
}

/// What a program is answered.
#[derive(Debug, Drop)]
pub enum Answer {
    /// The screen was shown.
    Shown,
    /// This entry line was taken.
    Entry(EntryLine),
    /// The attempt with this number of restarts began.
    Begun(u32),
    /// The server replied so.
    Replied(Bytes),
    /// The server had this run fault.
    Failed(u16),
    /// The transaction ended, with its changes.
    Ended,
    /// The transaction was dropped, without its changes.
    Dropped,
    /// The operation ended with this file status, and read this record, if any.
    FileDone { status: u16, content: Option<Bytes> },
}
