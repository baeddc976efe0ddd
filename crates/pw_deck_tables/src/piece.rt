ghost use Rattle.std.specs.Prelude.{◌≡◌, ◌==◌, ◌+◌, ◌≤◌, if◌then◌else◌, length, filter};
ghost use Rattle.pw_base.specs.Characters.{line_feed};
ghost use Rattle.pw_base.specs.Limits.{longest_input};
ghost use Rattle.pw_sections.specs.Lines.{lines};
ghost use Rattle.pw_deck_tables.specs.Pieces.{section_line, section_text, is_open};

use pw_sections::line::{line_end, next_line};
use std::marker::Model;

/// A piece of a deck, and the number of its first line. A deck is not too long, so a piece has no line
/// above its length.
#[derive(Debug, Drop)]
pub struct DeckPiece<'a> {
    pub bytes: &'a [u8],
    pub first_line: u32,
}

impl<'a> Model for DeckPiece<'a> {
    ghost use Rattle.pw_deck_tables.specs.Pieces.{DeckPieceModel as PieceOf, IsPiece};

    ghost Value = { PieceOf };

    ghost view = { λ piece. record { bytes = piece.bytes.now; first_line = piece.first_line } };

    ghost invariant = { λ piece. IsPiece (record { bytes = piece.bytes.now; first_line = piece.first_line }) };
}

/// The section line of a section.
pub fn section_line(section: &[u8]) -> &[u8]
    ensures { result.now ≡ section_line section.now }
{
    match next_line(section) {
        Some((line, _)) => line,
        None => &[],
    }
}

/// What stands behind the section line of a section.
pub fn section_text(section: &[u8]) -> &[u8]
    requires { 1 ≤ length section.now }
    ensures text { result.now ≡ section_text section.now }
    ensures shorter { length result.now + 1 ≤ length section.now }
{
    match line_end(section) {
        Some(end) => section.split_at(end + 1).1,
        None => &[],
    }
}

/// How many lines end with a byte: one, where it is LF.
fn ends_with(byte: u8) -> usize
    ensures value { result ≡ (if byte == line_feed then 1 else 0) }
    ensures bound { result ≤ 1 }
{
    if byte == b'\n' { 1 } else { 0 }
}

/// How many lines of a text end with LF. It is a sum without a branch.
fn line_ends(text: &[u8]) -> usize
    ensures value { result ≡ length (filter (λ byte. byte == line_feed) text.now) }
    ensures bound { result ≤ length text.now }
{
    let mut ends = 0;
    let mut rest = text;
    while let Some((byte, behind)) = rest.split_first() {
        ends += ends_with(*byte);
        rest = behind;
    }
    ends
}

/// Whether the last line of a text lacks its LF.
fn is_open(text: &[u8]) -> bool
    ensures { result ≡ is_open text.now }
{
    match text.split_last() {
        Some((byte, _)) => *byte != b'\n',
        None => false,
    }
}

/// How many lines a text has.
pub fn line_count(text: &[u8]) -> u32
    requires { length text.now ≤ longest_input }
    ensures value { result ≡ length (lines text.now) }
    ensures bound { result ≤ length text.now }
{
    let ends = line_ends(text) as u32;
    if is_open(text) { ends + 1 } else { ends }
}
