ghost use Rattle.std.specs.Prelude.{◌≡◌, ◌==◌, if◌then◌else◌, ◌<◌, ◌≤◌, ◌+◌, ◌-◌, ◌^◌, ◌++◌, All, OnOk, IfOk, length};
ghost use Rattle.pw_base.specs.First.{Gives, least};
ghost use Rattle.pw_base.specs.Limits.{longest_input};
ghost use Rattle.pw_text.specs.Items.{quote_size, behind_space};
ghost use Rattle.pw_text.specs.Tokens.{token_of, tokens_at, faults_at, line_after, tokens_of, LieBetween, StandsOn};

use crate::bytes::{first_bad_byte, space_count};
use crate::item::{LinePlace, TextPiece};
use crate::items::{behind_space, item_at};
use crate::token::{Token, TokenKind};
use pw_base::fault::{Fault, Refusal, better};
use pw_base::memory::Memory;
use std::alloc::Global;

/// How many bytes at each end of a token are no part of it.
fn quote_size(kind: TokenKind) -> u32
    ensures value { result ≡ quote_size kind }
    ensures bound { result ≤ 1 }
{
    match kind {
        TokenKind::Text => 1,
        _ => 0,
    }
}

/// The token in bytes of a line.
fn token_of(kind: TokenKind, line: u32, start: u32, end: u32) -> Token
    requires some { start < end }
    requires room { end + 1 < 2 ^ 32 }
    ensures { result ≡ token_of kind line start end }
{
    let quote = quote_size(kind);
    Token {
        kind,
        line,
        start: start + quote,
        end: end - quote,
    }
}

/// Puts the token that a piece is, if it is one, behind the others.
fn push_token(
    tokens: &mut Vec<Token>,
    piece: TextPiece,
    line: u32,
    start: u32,
    end: u32,
) -> Result<(), Memory>
    requires some { start < end }
    requires room { end + 1 < 2 ^ 32 }
    ensures { OnOk result (tokens.new.items ≡ tokens.old.items ++ tokens_at piece line start end) }
{
    match piece {
        TextPiece::Token(kind) => tokens.push(token_of(kind, line, start, end))?,
        _ => {}
    }
    Ok(())
}

/// The first of the fault that a piece is, if it is one, and of the one that is known.
fn noted_piece(known: Option<Fault>, piece: TextPiece, line: u32) -> Option<Fault>
    ensures { result ≡ least known (faults_at piece line) }
{
    match piece {
        TextPiece::Fault(code) => better(known, Fault { line, code }),
        _ => known,
    }
}

/// The line behind a piece.
fn line_after(piece: TextPiece, line: u32) -> u32
    requires { line + 1 < 2 ^ 32 }
    ensures value { result ≡ line_after piece line }
    ensures from { line ≤ result }
    ensures bound { result ≤ line + 1 }
{
    match piece {
        TextPiece::LineEnd => line + 1,
        _ => line,
    }
}

/// The place behind so many spaces.
fn behind_spaces(place: LinePlace, count: usize) -> LinePlace
    ensures { result ≡ (if count == 0 then place else behind_space place) }
{
    if count == 0 {
        place
    } else {
        behind_space(place)
    }
}

/// The tokens of a text whose first line has the number `first_line`.
///
/// It refuses exactly with the first fault, by line and on one line by code: 101 for a byte outside
/// 0x20 to 0x7E, also in a comment, and for a character that begins no token; 102 for a text that its
/// line does not close; 103 for a word of more than 30 characters; 104 for a number of more than 18
/// digits. Lines end with LF or with CR and LF. Empty lines, and lines that begin with `*`, have no
/// token.
pub fn tokens(alloc: Global, text: &[u8], first_line: u32) -> Result<Vec<Token>, Refusal>
    requires size { length text.now ≤ longest_input }
    requires lines { (1 ≤ first_line) × (first_line ≤ longest_input + 1) }
    ensures spans { IfOk result (λ tokens. LieBetween 0 tokens.items (length text.now)) }
    ensures lines { IfOk result (λ tokens. All (StandsOn first_line (first_line + length text.now)) tokens.items) }
    ensures tokens { Gives (λ tokens. tokens.items) result (tokens_of text.now first_line) }
{
    let mut tokens = Vec::new(alloc);
    let mut known = first_bad_byte(text, first_line);
    let mut line = first_line;
    let mut at = space_count(text);
    let mut place = behind_spaces(LinePlace::LineStart, at);
    let mut rest = text.split_at(at).1;
    while !rest.is_empty() {
        let item = item_at(place, rest);
        let end = at + item.size;
        push_token(&mut tokens, item.piece, line, at as u32, end as u32)?;
        known = noted_piece(known, item.piece, line);
        line = line_after(item.piece, line);
        let behind = rest.split_at(item.size).1;
        let spaces = space_count(behind);
        place = behind_spaces(item.next, spaces);
        at = end + spaces;
        rest = behind.split_at(spaces).1;
    }
    match known {
        None => Ok(tokens),
        Some(fault) => Err(fault.into()),
    }
}
