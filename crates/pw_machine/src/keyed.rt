//! Numbers as they are keyed in.

ghost use Rattle.std.specs.Prelude.{◌≡◌, ◌<◌, ◌≤◌, ◌+◌, ◌*◌, ◌/◌, ◌%◌, ◌-◌, ◌^◌, ◌==◌, length, filter, position, IfSome};
ghost use Rattle.std.specs.Char.{is_ascii_digit};
ghost use Rattle.pw_picture.specs.Symbols.{begins_with};
ghost use Rattle.pw_picture.specs.declared.picture.Picture.TheVariants as Picture;
ghost use Rattle.pw_picture.specs.Grammar.{IsPicture, size_of};
ghost use Rattle.pw_picture.specs.Stored.{moved, size_at, value_of};
ghost use Rattle.pw_code.specs.Spelling.{number_in, decimals_in};
ghost use Rattle.pw_terminal.specs.Shown.{written};

use crate::moves::number_to;
use crate::spot::MachineSpot;
use crate::texts::{digit_of_spelling, digits_in};
use pw_code::place::Kind;
use pw_picture::read::number_with;

/// Where the point of a number stands.
fn point_in(value: &[u8]) -> Option<usize>
    ensures place { result ≡ position (λ char. char == 46) value.now }
    ensures bound { IfSome result (λ place. place < length value.now) }
{
    value.iter().position(|char| *char == b'.')
}

/// How many characters stand behind the point.
fn decimals_in(value: &[u8]) -> usize
    ensures { result ≡ length (decimals_in value.now) }
{
    match point_in(value) {
        Some(point) => value.len() - point - 1,
        None => 0,
    }
}

/// The digit of the number that all digits are, at a weight of ten.
fn digit_at(value: &[u8], weight: usize) -> u8
    ensures { result ≡ value_of 0 (filter is_ascii_digit value.now) / 10 ^ weight % 10 }
{
    let count = digits_in(value);
    if weight < count {
        digit_of_spelling(value, count - 1 - weight) - b'0'
    } else {
        0
    }
}

/// The digit of the number with some zeros behind it and then some places cut, at a weight of ten.
fn digit_with(value: &[u8], decimals: usize, places: u8, weight: u8) -> u8
    requires weight { weight < 18 }
    requires decimals { decimals ≤ length value.now }
    ensures { result ≡ value_of 0 (filter is_ascii_digit value.now) * 10 ^ places / 10 ^ decimals / 10 ^ weight % 10 }
{
    let behind = weight as usize + decimals;
    if behind >= places as usize {
        digit_at(value, behind - places as usize)
    } else {
        0
    }
}

/// So many low digits of a number that is keyed in, at these places.
fn low_digits(value: &[u8], digits: u8, places: u8) -> u64
    requires { digits ≤ 18 }
    ensures digits { result ≡ size_at places (number_in value.now) % 10 ^ digits }
    ensures bound { result < 10 ^ 18 }
{
    let decimals = decimals_in(value);
    let mut size = 0;
    for place in 0..digits {
        let digit = digit_with(value, decimals, places, digits - 1 - place);
        size = size * 10 + digit as u64;
    }
    size
}

/// Whether a number that is keyed in has a minus sign.
fn is_below_zero(value: &[u8]) -> bool
    ensures { result ≡ begins_with 45 value.now }
{
    match value {
        [first, ..] => *first == b'-',
        [] => false,
    }
}

/// Moves a number that is keyed in to a Number item: further decimals are cut, and high digits are dropped.
pub fn number_keyed(
    storage: &mut [u8],
    at: usize,
    digits: u8,
    places: u8,
    signed: bool,
    value: &[u8],
)
    requires picture { IsPicture (Picture.Number digits places signed) }
    requires inside { at + size_of (Picture.Number digits places signed) ≤ length storage.old }
    ensures { storage.new ≡ written at (moved (Picture.Number digits places signed) (number_in value.now)) storage.old }
{
    let digits_kept = low_digits(value, digits, places);
    let number = number_with(is_below_zero(value), digits_kept, places);
    let kind = Kind::Number {
        digits,
        places,
        signed,
    };
    let size = digits as usize + signed as usize;
    number_to(
        storage,
        MachineSpot { at, size, kind },
        digits,
        places,
        signed,
        number,
    );
}
