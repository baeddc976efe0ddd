ghost use Rattle.std.specs.Prelude.{◌≡◌, ◌++◌, ◌+◌, ◌≤◌, min, false, length, drop, IfOk, OnOk, IsTrue, if◌then◌else◌};
ghost use Rattle.std.specs.List.{list_all};
ghost use Rattle.std.specs.Char.{is_ascii_digit};
ghost use Rattle.pw_picture.specs.Grammar.{IsPicture};
ghost use Rattle.pw_picture.specs.Stored.{is_numeric_picture, read_of};
ghost use Rattle.pw_picture.specs.declared.picture.Picture.TheVariants.{Number as NumberPicture};
ghost use Rattle.pw_picture.specs.Symbols.{value_behind, begins_with};
ghost use Rattle.pw_data.specs.Literals.{whole_number, before_point, behind_point, has_sign, sign_size, number_with, number_of_literal, literal_of, holds_number, picture_holds};

use pw_base::bytes::Bytes;
use pw_base::memory::Memory;
use pw_number::scaled::Scaled;
use pw_picture::picture::Picture;
pub use pw_text::literal::unquoted;
use pw_text::token::{Token, TokenKind};
use std::alloc::Global;
use std::cmp::Ordering;

/// A literal of the source: the characters of a text, or a number.
#[derive(Debug, Drop)]
pub enum Literal {
    Text(Bytes),
    Number(Scaled),
}

/// The value of digits, where a value above 1,000 counts as 1,001.
fn value_of(digits: &[u8]) -> u16
    ensures { result ≡ min (value_behind 0 digits.now) 1001 }
{
    let mut value: u16 = 0;
    for digit in digits {
        value = (10 * value + digit.saturating_sub(b'0') as u16).min(1001);
    }
    value
}

/// Whether all bytes are digits.
fn are_digits(bytes: &[u8]) -> bool
    ensures { result ≡ list_all is_ascii_digit bytes.now }
{
    bytes.iter().all(|byte| byte.is_ascii_digit())
}

/// The value of digits without a sign or a point, where a value above 1,000 counts as 1,001.
pub fn whole_number(bytes: &[u8]) -> Option<u16>
    ensures { result ≡ whole_number bytes.now }
{
    if bytes.len() >= 1 && are_digits(bytes) {
        Some(value_of(bytes))
    } else {
        None
    }
}

/// How many bytes stand in front of a point.
fn point_at(bytes: &[u8]) -> usize
    ensures value { result ≡ length (before_point bytes.now) }
    ensures bound { result ≤ length bytes.now }
{
    bytes.iter().take_while(|byte| **byte != b'.').count()
}

/// The bytes behind the first one.
fn behind_first(bytes: &[u8]) -> &[u8]
    ensures { result.now ≡ drop 1 bytes.now }
{
    match bytes {
        [_, behind @ ..] => behind,
        [] => bytes,
    }
}

/// The bytes in front of a point, and those behind it.
fn at_point(bytes: &[u8]) -> (&[u8], &[u8])
    ensures front { result.0.now ≡ before_point bytes.now }
    ensures behind { result.1.now ≡ behind_point bytes.now }
{
    let (front, rest) = bytes.split_at(point_at(bytes));
    (front, behind_first(rest))
}

/// Whether a sign stands in front.
fn has_sign(bytes: &[u8]) -> bool
    ensures { result ≡ has_sign bytes.now }
{
    match bytes {
        [byte, ..] => *byte == b'+' || *byte == b'-',
        [] => false,
    }
}

/// The number that an item holds which has these characters: 1 to 18 digits, behind a sign where it is
/// signed. The last `places` are decimals.
fn number_in(signed: bool, places: usize, digits: usize, chars: &[u8]) -> Scaled
    requires digits { (1 ≤ digits) × (digits ≤ 18) }
    requires places { places ≤ digits }
    requires size { length chars.now ≡ digits + sign_size signed }
    ensures { result ≡ read_of (NumberPicture digits places signed) chars.now }
{
    let picture = Picture::Number {
        digits: digits as u8,
        places: places as u8,
        signed,
    };
    picture.read_number(chars)
}

/// The number that an item holds which has these characters before its decimals and these decimals.
/// It is None where the digits are not 1 to 18.
fn number_with(signed: bool, front: &[u8], places: &[u8]) -> Option<Scaled>
    requires { sign_size signed ≤ length front.now }
    ensures { result ≡ number_with signed front.now places.now }
{
    let size = front.len().saturating_add(places.len());
    let digits = size - signed as usize;
    if digits < 1 || digits > 18 {
        return None;
    }
    let mut chars = [b'0'; 19];
    let (first, rest) = chars.split_at_mut(front.len());
    first.copy_from_slice(front);
    rest[..places.len()].copy_from_slice(places);
    Some(number_in(signed, places.len(), digits, &chars[..size]))
}

/// The number that a literal is: an optional sign, digits, and an optional point with digits behind
/// it, with 1 to 18 digits in all.
pub fn number_of(bytes: &[u8]) -> Option<Scaled>
    ensures { result ≡ number_of_literal bytes.now }
{
    let (front, places) = at_point(bytes);
    number_with(has_sign(bytes), front, places)
}

/// The literal that a token is. It is None for a token of another kind.
pub fn literal_of(alloc: Global, text: &[u8], token: Token) -> Result<Option<Literal>, Memory>
    ensures { IfOk result (λ literal. literal ≡ literal_of text.now token) }
{
    let bytes = token.spelling(text);
    match token.kind {
        TokenKind::Text => Ok(Some(Literal::Text(unquoted(alloc, bytes)?))),
        TokenKind::Number => match number_of(bytes) {
            Some(number) => Ok(Some(Literal::Number(number))),
            None => Ok(None),
        },
        _ => Ok(None),
    }
}

/// Whether a number is kept, and is still the same when it is read.
fn holds_number(picture: &Picture, number: Scaled) -> bool
    requires picture { IsPicture picture.now }
    requires number { IsTrue (is_numeric_picture picture.now) }
    ensures { result ≡ holds_number picture.now number }
{
    let mut chars = [b'0'; 19];
    let (field, _) = chars.split_at_mut(picture.size() as usize);
    if picture.store(number, field).is_err() {
        return false;
    }
    picture.read_number(field).compare(&number) == Ordering::Equal
}

/// Whether an item of a picture holds a literal unchanged, up to padding.
pub fn holds(picture: &Picture, literal: &Literal) -> bool
    requires { IsPicture picture.now }
    ensures { result ≡ picture_holds picture.now literal.now }
{
    match (picture, literal) {
        (Picture::Text { size }, Literal::Text(chars)) => chars.len() <= *size as usize,
        (Picture::Number { .. }, Literal::Number(number)) => holds_number(picture, *number),
        _ => false,
    }
}
