ghost use Rattle.std.specs.Prelude.{◌≡◌, ◌<◌, ◌≤◌, ◌+◌, ◌^◌, false, length};
ghost use Rattle.pw_text.specs.Bytes.{is_digit, run};
ghost use Rattle.pw_text.specs.Items.{quote_size, quotes, token, fault, gap, text_item, quoted, is_pic, word_at, word_item, dollar_item, places_at, number_token, number_item, or_equal, mark_item, number_or_mark, line_item, without_period, picture_of, picture_item, is_is, item_by, behind_space, item_at, FitsBytes};

use crate::bytes::{
    digit_count, is_digit, is_letter, is_separator, is_signed, line_size, picture_at, word_at,
};
use crate::item::{LinePlace, TextItem, TextPiece};
use crate::quoted::quoted;
use crate::token::{MAX_DIGITS, MAX_WORD, TokenKind};
use pw_base::fault_code::FaultCode;
use pw_words::table::is_same_word;

/// A token of so many bytes. What follows stands further on in the line.
fn token(kind: TokenKind, size: usize) -> TextItem
    ensures { result ≡ token kind size }
{
    TextItem {
        piece: TextPiece::Token(kind),
        size,
        next: LinePlace::InLine,
    }
}

/// A fault of so many bytes. What follows stands further on in the line.
fn fault(code: FaultCode, size: usize) -> TextItem
    ensures { result ≡ fault code size }
{
    TextItem {
        piece: TextPiece::Fault(code),
        size,
        next: LinePlace::InLine,
    }
}

/// So many bytes that are no token, and the place behind them.
fn gap(size: usize, next: LinePlace) -> TextItem
    ensures { result ≡ gap size next }
{
    TextItem {
        piece: TextPiece::Gap,
        size,
        next,
    }
}

/// The text behind a quote.
fn text_item(behind: &[u8]) -> TextItem
    requires { length behind.now < 2 ^ 32 }
    ensures value { result ≡ text_item (quoted false behind.now) behind.now }
    ensures some { 0 < result.size }
    ensures bound { result.size ≤ 1 + length behind.now }
    ensures quotes { quotes result.piece ≤ result.size }
{
    match quoted(behind) {
        None => fault(FaultCode::UnclosedLiteral, 1 + line_size(behind)),
        Some(size) => token(TokenKind::Text, 1 + size),
    }
}

/// Whether a picture follows the word.
fn is_pic(word: &[u8]) -> bool
    ensures { result ≡ is_pic word.now }
{
    is_same_word(word, b"PIC") || is_same_word(word, b"PICTURE")
}

/// A word in front: a token, or a fault where it is too long. A picture follows PIC.
#[inline(always)]
fn word_item(word: &[u8]) -> TextItem
    ensures value { result ≡ word_item word.now }
    ensures size { result.size ≡ length word.now }
    ensures quotes { quotes result.piece ≤ result.size }
{
    if word.len() > MAX_WORD {
        fault(FaultCode::WordTooLong, word.len())
    } else if is_pic(word) {
        TextItem {
            next: LinePlace::BehindPic,
            ..token(TokenKind::Word, word.len())
        }
    } else {
        token(TokenKind::Word, word.len())
    }
}

/// A `$`, by the word behind it.
fn dollar_item(word: &[u8]) -> TextItem
    ensures value { result ≡ dollar_item word.now }
    ensures some { 0 < result.size }
    ensures bound { result.size ≤ 1 + length word.now }
    ensures quotes { quotes result.piece ≤ result.size }
{
    if is_same_word(word, b"RECEIVE") {
        token(TokenKind::Word, 1 + word.len())
    } else {
        fault(FaultCode::BadCharacter, 1)
    }
}

/// How many digits stand behind a point.
fn places_at(bytes: &[u8]) -> usize
    ensures value { result ≡ places_at bytes.now }
    ensures bound { 0 < result → 1 + result ≤ length bytes.now }
{
    match bytes {
        [b'.', behind @ ..] => digit_count(behind),
        _ => 0,
    }
}

/// The number of so many digits before and behind its point.
fn number_of(sign: usize, whole: usize, places: usize) -> TextItem
    requires { sign + whole + places + 1 < 2 ^ 32 }
    ensures value { result ≡ number_token sign whole places }
    ensures some { sign + whole ≤ result.size }
    ensures bound { result.size ≤ sign + whole + places + 1 }
    ensures quotes { quotes result.piece ≤ result.size }
    ensures bare { places ≡ 0 → result.size ≡ sign + whole }
{
    let fraction = if places == 0 { 0 } else { 1 + places };
    let size = sign + (whole + fraction);
    if whole + places > MAX_DIGITS {
        fault(FaultCode::NumberTooLong, size)
    } else {
        token(TokenKind::Number, size)
    }
}

/// The number of these digits, behind a sign of so many bytes.
fn number_item(sign: usize, bytes: &[u8]) -> TextItem
    requires { sign + length bytes.now < 2 ^ 30 }
    ensures value { result ≡ number_item sign bytes.now }
    ensures some { sign + run is_digit bytes.now ≤ result.size }
    ensures bound { result.size ≤ sign + length bytes.now }
    ensures quotes { quotes result.piece ≤ result.size }
{
    let whole = digit_count(bytes);
    let (_, behind) = bytes.split_at(whole);
    number_of(sign, whole, places_at(behind))
}

/// A mark that an `=` may follow.
fn or_equal(alone: TokenKind, with_equal: TokenKind, behind: &[u8]) -> TextItem
    requires alone { quote_size alone ≡ 0 }
    requires with_equal { quote_size with_equal ≡ 0 }
    ensures value { result ≡ or_equal alone with_equal behind.now }
    ensures some { 0 < result.size }
    ensures bound { result.size ≤ 1 + length behind.now }
    ensures quotes { quotes result.piece ≤ result.size }
{
    match behind {
        [b'=', ..] => token(with_equal, 2),
        _ => token(alone, 1),
    }
}

/// A mark in front, by its first byte and those behind it, or a fault.
fn mark_item(byte: u8, behind: &[u8]) -> TextItem
    ensures value { result ≡ mark_item byte behind.now }
    ensures some { 0 < result.size }
    ensures bound { result.size ≤ 1 + length behind.now }
    ensures quotes { quotes result.piece ≤ result.size }
{
    match byte {
        b'.' => token(TokenKind::Period, 1),
        b'(' => token(TokenKind::LeftParen, 1),
        b')' => token(TokenKind::RightParen, 1),
        b'=' => token(TokenKind::Equal, 1),
        b'<' => or_equal(TokenKind::Less, TokenKind::LessEqual, behind),
        b'>' => or_equal(TokenKind::Greater, TokenKind::GreaterEqual, behind),
        _ => fault(FaultCode::BadCharacter, 1),
    }
}

/// A number or a mark.
#[tactic(auto, unfolding(crate::specs::Items::number_or_mark))]
fn number_or_mark(bytes: &[u8]) -> TextItem
    requires some { 0 < length bytes.now }
    requires room { length bytes.now < 2 ^ 29 }
    ensures value { result ≡ number_or_mark bytes.now }
    ensures fits { FitsBytes result bytes.now }
{
    match bytes {
        [] => gap(1, LinePlace::InLine),
        [byte, behind @ ..] => {
            if is_digit(*byte) {
                number_item(0, bytes)
            } else if is_signed(*byte, behind) {
                number_item(1, behind)
            } else {
                mark_item(*byte, behind)
            }
        }
    }
}

/// What stands in a line, where no picture is awaited.
#[inline(always)]
#[tactic(auto, unfolding(crate::specs::Items::line_item))]
fn line_item(bytes: &[u8]) -> TextItem
    requires some { 0 < length bytes.now }
    requires room { length bytes.now < 2 ^ 29 }
    ensures value { result ≡ line_item bytes.now }
    ensures fits { FitsBytes result bytes.now }
{
    match bytes {
        [] => gap(1, LinePlace::InLine),
        [byte, behind @ ..] => {
            if is_separator(*byte) {
                gap(1, LinePlace::InLine)
            } else if *byte == b'"' {
                text_item(behind)
            } else if is_letter(*byte) {
                word_item(word_at(bytes))
            } else if *byte == b'$' {
                dollar_item(word_at(behind))
            } else {
                number_or_mark(bytes)
            }
        }
    }
}

/// The bytes without a period at their end.
fn without_period(bytes: &[u8]) -> &[u8]
    ensures value { result.now ≡ without_period bytes.now }
    ensures bound { length result.now ≤ length bytes.now }
{
    bytes.strip_suffix(b".").unwrap_or(bytes)
}

/// A picture of a size, or the period where none is left.
fn picture_of(size: usize) -> TextItem
    ensures value { result ≡ picture_of size }
    ensures some { 0 < result.size }
    ensures bound { result.size ≤ size + 1 }
    ensures quotes { quotes result.piece ≤ result.size }
    ensures same { 0 < size → result.size ≡ size }
{
    if size == 0 {
        token(TokenKind::Period, 1)
    } else {
        token(TokenKind::Picture, size)
    }
}

/// The run of characters other than space; a period at its end is no part of the picture.
fn picture_item(bytes: &[u8]) -> TextItem
    requires { 0 < length bytes.now }
    ensures value { result ≡ picture_item bytes.now }
    ensures fits { FitsBytes result bytes.now }
{
    picture_of(without_period(picture_at(bytes)).len())
}

/// Whether the word IS stands in front.
fn is_is(bytes: &[u8]) -> bool
    ensures { result ≡ is_is bytes.now }
{
    match bytes {
        [byte, ..] => is_letter(*byte) && is_same_word(word_at(bytes), b"IS"),
        [] => false,
    }
}

/// What stands behind PIC or PICTURE.
fn pic_item(bytes: &[u8]) -> TextItem
    requires { 0 < length bytes.now }
    ensures value { result ≡ item_by LinePlace.BehindPic bytes.now }
    ensures fits { FitsBytes result bytes.now }
{
    if is_is(bytes) {
        TextItem {
            next: LinePlace::BehindIs,
            ..token(TokenKind::Word, word_at(bytes).len())
        }
    } else {
        picture_item(bytes)
    }
}

/// What stands in front of a line.
fn first_item(bytes: &[u8]) -> TextItem
    requires some { 0 < length bytes.now }
    requires room { length bytes.now < 2 ^ 29 }
    ensures value { result ≡ item_by LinePlace.LineStart bytes.now }
    ensures fits { FitsBytes result bytes.now }
{
    match bytes {
        [b'*', ..] => gap(line_size(bytes), LinePlace::InLine),
        _ => line_item(bytes),
    }
}

/// What stands at a place of a line, which has neither ended nor goes on with a space.
fn item_by(place: LinePlace, bytes: &[u8]) -> TextItem
    requires some { 0 < length bytes.now }
    requires room { length bytes.now < 2 ^ 29 }
    ensures value { result ≡ item_by place bytes.now }
    ensures fits { FitsBytes result bytes.now }
{
    match place {
        LinePlace::LineStart => first_item(bytes),
        LinePlace::InLine => line_item(bytes),
        LinePlace::BehindPic => pic_item(bytes),
        LinePlace::BehindIs => picture_item(bytes),
    }
}

/// The place behind a space.
pub fn behind_space(place: LinePlace) -> LinePlace
    ensures { result ≡ behind_space place }
{
    match place {
        LinePlace::LineStart => LinePlace::InLine,
        _ => place,
    }
}

/// What stands at a place of a line, in front of the bytes.
#[tactic(auto, unfolding(crate::specs::Items::item_at))]
pub fn item_at(place: LinePlace, bytes: &[u8]) -> TextItem
    requires some { 0 < length bytes.now }
    requires room { length bytes.now < 2 ^ 29 }
    ensures value { result ≡ item_at place bytes.now }
    ensures fits { FitsBytes result bytes.now }
{
    match bytes {
        [] => gap(1, place),
        [b'\n', ..] => TextItem {
            piece: TextPiece::LineEnd,
            size: 1,
            next: LinePlace::LineStart,
        },
        [b' ' | b'\r', ..] => gap(1, behind_space(place)),
        _ => item_by(place, bytes),
    }
}
