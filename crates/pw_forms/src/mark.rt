use crate::statement::Operation;

/// The verbs that servers alone have.
#[derive(Clone, Copy, Debug, PartialEq, Eq)]
pub enum FileVerb {
    Delete,
    Read,
    Rewrite,
    Write,
}

/// The verbs of transactions.
#[derive(Clone, Copy, Debug, PartialEq, Eq)]
pub enum TransactionVerb {
    Begin,
    End,
    Abort,
    Restart,
}

/// The verbs that requesters alone have.
#[derive(Clone, Copy, Debug, PartialEq, Eq)]
pub enum TerminalVerb {
    Accept,
    Call,
    Display,
    Send,
    Transaction(TransactionVerb),
}

/// The words that begin a statement.
#[derive(Clone, Copy, Debug, PartialEq, Eq)]
pub enum StatementVerb {
    Exit,
    If,
    Move,
    Perform,
    Stop,
    Arithmetic(Operation),
    File(FileVerb),
    Terminal(TerminalVerb),
}

/// What begins with a token.
#[derive(Clone, Copy, Debug, PartialEq, Eq)]
pub enum TokenMark {
    Verb(StatementVerb),
    Else,
    EndIf,
    Period,
    /// No piece begins here, but it may begin a run of other tokens.
    Other,
}
