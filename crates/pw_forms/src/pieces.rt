ghost use Rattle.std.specs.Prelude.{◌≡◌, ◌≤◌, IfOk, length, drop, if◌then◌else◌};
ghost use Rattle.pw_forms.specs.Pieces as spec;

use crate::mark::{StatementVerb, TokenMark};
use crate::piece::Piece;
use crate::words::{begins_piece, is_receive, is_table_word, mark_of, name_in};
use pw_base::fault_code::FaultCode;
use pw_base::memory::Memory;
use pw_text::token::{Token, TokenKind};
use std::alloc::Global;

/// Whether a mark is a period.
pub fn is_period(mark: TokenMark) -> bool
    ensures { result ≡ spec.is_period mark }
{
    matches!(mark, TokenMark::Period)
}

/// What the first of some tokens begins.
pub fn first_mark(server: bool, text: &[u8], tokens: &[Token]) -> TokenMark
    ensures { result ≡ spec.first_mark server text.now tokens.now }
{
    match tokens {
        [token, ..] => mark_of(server, text, *token),
        [] => TokenMark::Other,
    }
}

/// How many tokens stand in front of the next that begins a piece, and what that one begins.
fn run_end(server: bool, text: &[u8], tokens: &[Token]) -> (usize, TokenMark)
    ensures size { result.0 ≡ spec.run_size server text.now tokens.now }
    ensures bound { result.0 ≤ length tokens.now }
    ensures next { result.1 ≡ spec.first_mark server text.now (drop result.0 tokens.now) }
{
    let mut size = 0;
    let mut rest = tokens;
    while let Some((token, behind)) = rest.split_first() {
        let mark = mark_of(server, text, *token);
        if begins_piece(mark) {
            return (size, mark);
        }
        size += 1;
        rest = behind;
    }
    (size, TokenMark::Other)
}

/// How many tokens the piece has behind its first token, which begins what the mark says: none behind
/// a period, else those up to the next token that begins a piece; and what that token begins.
pub fn piece_end(server: bool, text: &[u8], mark: TokenMark, behind: &[Token]) -> (usize, TokenMark)
    ensures size { result.0 ≡ (if spec.is_period mark then 0 else spec.run_size server text.now behind.now) }
    ensures bound { result.0 ≤ length behind.now }
    ensures next { result.1 ≡ spec.first_mark server text.now (drop result.0 behind.now) }
{
    if is_period(mark) {
        (0, first_mark(server, text, behind))
    } else {
        run_end(server, text, behind)
    }
}

/// Whether a verb is not for servers.
pub fn is_barred(verb: StatementVerb) -> bool
    ensures { result ≡ spec.is_barred verb }
{
    matches!(verb, StatementVerb::Terminal(_))
}

/// The piece of a paragraph's name.
fn name_piece(alloc: Global, server: bool, text: &[u8], word: Token) -> Result<Piece, Memory>
    ensures { IfOk result (λ piece. piece ≡ spec.name_piece server text.now word) }
{
    if is_table_word(server, word.spelling(text)) {
        Ok(Piece::Fault(FaultCode::NameTwice))
    } else if is_receive(text, word) {
        Ok(Piece::Fault(FaultCode::NoSuchForm))
    } else {
        Ok(Piece::Name(name_in(alloc, text, word)?))
    }
}

/// The piece of a run of other tokens: one word before a period is the name of a paragraph.
pub fn run_piece(
    alloc: Global,
    server: bool,
    text: &[u8],
    followed: bool,
    first: Token,
    tokens: &[Token],
) -> Result<Piece, Memory>
    ensures { IfOk result (λ piece.
        piece ≡ spec.run_piece server text.now followed first tokens.now) }
{
    if tokens.is_empty() && (first.kind.is(TokenKind::Word) && followed) {
        name_piece(alloc, server, text, first)
    } else {
        Ok(Piece::Fault(FaultCode::NoSuchForm))
    }
}
