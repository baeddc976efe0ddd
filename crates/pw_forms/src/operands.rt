ghost use Rattle.std.specs.Prelude.{◌≡◌, ◌<◌, ◌≤◌, IfSome, length, position};
ghost use Rattle.pw_words.specs.Words.{word_place, same_word};
ghost use Rattle.pw_forms.specs.Readers.{ReadsForm, Rest};
ghost use Rattle.pw_forms.specs.Operands as spec;

use crate::cursor::FormCursor;
use crate::lack::Lack;
use crate::literal::{is_code, value_of};
use crate::operand::{Operand, Subscript};
use crate::words::{is_item_name, is_name, is_receive, name_in};
use pw_base::bytes::Bytes;
use pw_text::literal::unquoted;
use pw_text::token::{Token, TokenKind};
use pw_words::table::is_same_word;
use std::alloc::Global;

/// The names of the keys, by their numbers from 1 on.
const KEY_WORDS: &[&[u8]] = &[
    b"F1", b"F2", b"F3", b"F4", b"F5", b"F6", b"F7", b"F8", b"F9", b"F10", b"F11", b"F12", b"F13",
    b"F14", b"F15", b"F16", b"SF1", b"SF2", b"SF3", b"SF4", b"SF5", b"SF6", b"SF7", b"SF8", b"SF9",
    b"SF10", b"SF11", b"SF12", b"SF13", b"SF14", b"SF15", b"SF16",
];

/// The value of a subscript that a token is: a number, or the name of an item.
fn subscript_by(alloc: Global, rest: &FormCursor<'_>, value: Token) -> Result<Subscript, Lack>
    ensures { ReadsForm (spec.subscript_by value.kind value rest.now) result rest.now }
{
    match value.kind {
        TokenKind::Number => {
            let digits = Bytes::from_slice(alloc, value.spelling(rest.text()))?;
            Ok(Subscript::Number(digits))
        }
        _ => {
            if !is_item_name(rest.is_server(), rest.text(), value) {
                return Err(Lack::NoForm);
            }
            Ok(Subscript::Item(name_in(alloc, rest.text(), value)?))
        }
    }
}

/// A subscript in parentheses, where one opens.
#[tactic(auto, unfolding(crate::specs::Operands::subscript_behind))]
fn subscript_behind(alloc: Global, rest: &mut FormCursor<'_>) -> Result<Option<Subscript>, Lack>
    ensures { ReadsForm (spec.subscript_behind rest.old) result rest.new }
{
    if !rest.takes(TokenKind::LeftParen) {
        return Ok(None);
    }
    let value = rest.next()?;
    let subscript = subscript_by(alloc, rest, value)?;
    if rest.takes(TokenKind::RightParen) {
        Ok(Some(subscript))
    } else {
        Err(Lack::NoForm)
    }
}

/// The item of a name.
#[tactic(auto, unfolding(crate::specs::Operands::item))]
fn item(alloc: Global, rest: &mut FormCursor<'_>, name: Token) -> Result<Operand, Lack>
    ensures { ReadsForm (spec.item name rest.old) result rest.new }
{
    let subscript = subscript_behind(alloc, rest)?;
    let name = name_in(alloc, rest.text(), name)?;
    Ok(Operand::Item { name, subscript })
}

/// SPACES or ZEROS, in each of their spellings.
#[tactic(auto, unfolding(crate::specs::Operands::figurative))]
fn figurative(text: &[u8], word: Token) -> Option<Operand>
    ensures { result ≡ spec.figurative text.now word }
{
    if word.is_the_word(text, b"SPACE") || word.is_the_word(text, b"SPACES") {
        Some(Operand::Spaces)
    } else if word.is_the_word(text, b"ZERO")
        || (word.is_the_word(text, b"ZEROS") || word.is_the_word(text, b"ZEROES"))
    {
        Some(Operand::Zeros)
    } else {
        None
    }
}

/// The operand that begins with a token.
fn operand_by(alloc: Global, rest: &mut FormCursor<'_>, first: Token) -> Result<Operand, Lack>
    ensures { ReadsForm (spec.operand_by first.kind first rest.old) result rest.new }
{
    match first.kind {
        TokenKind::Number => {
            let digits = Bytes::from_slice(alloc, first.spelling(rest.text()))?;
            Ok(Operand::Number(digits))
        }
        TokenKind::Text => {
            let chars = unquoted(alloc, first.spelling(rest.text()))?;
            Ok(Operand::Text(chars))
        }
        _ => {
            if is_item_name(rest.is_server(), rest.text(), first) {
                return item(alloc, rest, first);
            }
            match figurative(rest.text(), first) {
                Some(operand) => Ok(operand),
                None => Err(Lack::NoForm),
            }
        }
    }
}

/// An item, a literal, SPACES or ZEROS.
#[tactic(auto, unfolding(crate::specs::Operands::operand))]
pub fn operand(alloc: Global, rest: &mut FormCursor<'_>) -> Result<Operand, Lack>
    ensures { ReadsForm (spec.operand rest.old) result rest.new }
{
    let first = rest.next()?;
    operand_by(alloc, rest, first)
}

/// The name of a paragraph or of a screen, in upper case.
#[tactic(auto, unfolding(crate::specs::Operands::name))]
pub fn name(alloc: Global, rest: &mut FormCursor<'_>) -> Result<Bytes, Lack>
    ensures { ReadsForm (spec.name rest.old) result rest.new }
{
    let word = rest.next()?;
    if is_name(rest.is_server(), rest.text(), word) {
        Ok(name_in(alloc, rest.text(), word)?)
    } else {
        Err(Lack::NoForm)
    }
}

/// The name of a file, in upper case. It may be a table word.
#[tactic(auto, unfolding(crate::specs::Operands::file_name))]
pub fn file_name(alloc: Global, rest: &mut FormCursor<'_>) -> Result<Bytes, Lack>
    ensures { ReadsForm (spec.file_name rest.old) result rest.new }
{
    let word = rest.next()?;
    if word.kind.is(TokenKind::Word) && !is_receive(rest.text(), word) {
        Ok(name_in(alloc, rest.text(), word)?)
    } else {
        Err(Lack::NoForm)
    }
}

/// The name of a program or a class that a token is.
fn program_by(alloc: Global, rest: &FormCursor<'_>, first: Token) -> Result<Bytes, Lack>
    ensures { ReadsForm (spec.program_by first.kind first rest.now) result rest.now }
{
    match first.kind {
        TokenKind::Text => Ok(unquoted(alloc, first.spelling(rest.text()))?),
        _ => {
            if first.kind.is(TokenKind::Word) && !is_receive(rest.text(), first) {
                Ok(name_in(alloc, rest.text(), first)?)
            } else {
                Err(Lack::NoForm)
            }
        }
    }
}

/// The name of a program or a class: a word, which may be a table word, in upper case, or a text
/// with exactly its characters.
#[tactic(auto, unfolding(crate::specs::Operands::program_name))]
pub fn program_name(alloc: Global, rest: &mut FormCursor<'_>) -> Result<Bytes, Lack>
    ensures { ReadsForm (spec.program_name rest.old) result rest.new }
{
    let first = rest.next()?;
    program_by(alloc, rest, first)
}

/// The place of a word among some rows.
fn place_in(rows: &[&[u8]], word: &[u8]) -> Option<usize>
    ensures place { result ≡ position (λ row. same_word row.now word.now) rows.now }
    ensures bound { IfSome result (λ place. place < length rows.now) }
{
    rows.iter().position(|row| is_same_word(row, word))
}

/// The place of a word among the names of the keys.
fn key_place(word: &[u8]) -> Option<usize>
    ensures place { result ≡ word_place spec.key_words word.now }
    ensures bound { IfSome result (λ place. place ≤ 31) }
{
    place_in(KEY_WORDS, word)
}

/// The number of the key that a word names.
#[tactic(auto, unfolding(crate::specs::Operands::key_of))]
fn key_of(word: &[u8]) -> Option<u8>
    ensures { result ≡ spec.key_of word.now }
{
    let place = key_place(word)?;
    Some(place as u8 + 1)
}

/// A key, by its number.
#[tactic(auto, unfolding(crate::specs::Operands::key))]
pub fn key(rest: &mut FormCursor<'_>) -> Result<u8, Lack>
    ensures { ReadsForm (spec.key rest.old) result rest.new }
{
    let word = rest.next()?;
    if !word.kind.is(TokenKind::Word) {
        return Err(Lack::NoForm);
    }
    match key_of(word.spelling(rest.text())) {
        Some(number) => Ok(number),
        None => Err(Lack::NoForm),
    }
}

/// The number of a code, 0 to 9999.
#[tactic(auto, unfolding(crate::specs::Operands::code))]
pub fn code(rest: &mut FormCursor<'_>) -> Result<u16, Lack>
    ensures { ReadsForm (spec.code rest.old) result rest.new }
{
    let number = rest.next()?;
    let digits = number.spelling(rest.text());
    if matches!(number.kind, TokenKind::Number) && is_code(digits) {
        Ok(value_of(digits))
    } else {
        Err(Lack::NoForm)
    }
}
