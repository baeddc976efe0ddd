use crate::branch::OpenParagraph;
use crate::statement::Paragraph;
use pw_base::bytes::Bytes;
use pw_base::list::List;

/// A paragraph whose name was read: its name and its line.
#[derive(Drop)]
pub struct Begun {
    pub name: Bytes,
    pub line: u32,
}

/// The paragraphs so far, the one that has begun, if any, and its statements so far.
#[derive(Drop)]
pub struct ParagraphBuilder {
    pub paragraphs: List<Paragraph>,
    pub begun: Option<Begun>,
    pub block: OpenParagraph,
}
