use crate::form::Head;
use crate::statement::Statement;
use pw_base::bytes::Bytes;
use pw_base::fault_code::FaultCode;

/// What a piece of a procedure is, by its tokens alone.
#[derive(Drop)]
pub enum Piece {
    /// The name of a paragraph, in upper case.
    Name(Bytes),
    Period,
    Whole(Statement),
    Opens(Head),
    Else,
    EndIf,
    /// None of these, but a fault of this code.
    Fault(FaultCode),
}

/// A piece, and the line of its first token.
#[derive(Drop)]
pub struct Placed {
    pub line: u32,
    pub piece: Piece,
}
