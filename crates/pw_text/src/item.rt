use crate::token::TokenKind;
use pw_base::fault_code::FaultCode;

/// What stands at the front of a text.
#[derive(Clone, Copy)]
pub enum TextPiece {
    Token(TokenKind),
    Fault(FaultCode),
    /// A separator or a comment.
    Gap,
    LineEnd,
}

/// Where in its line something stands.
#[derive(Clone, Copy)]
pub enum LinePlace {
    /// At the first byte of the line.
    LineStart,
    /// Further on.
    InLine,
    /// Behind the word PIC or PICTURE.
    BehindPic,
    /// Behind the word IS that follows PIC or PICTURE.
    BehindIs,
}

/// A piece of a text: its size in bytes, and the place behind it.
#[derive(Clone, Copy)]
pub struct TextItem {
    pub piece: TextPiece,
    pub size: usize,
    pub next: LinePlace,
}
