ghost use Rattle.std.specs.Prelude.{◌≡◌, ◌<◌, ◌≤◌, ◌^◌, length, IsTrue, if◌then◌else◌};
ghost use Rattle.pw_number.specs.Number.{number};
ghost use Rattle.pw_number.specs.Sign.{signed};
ghost use Rattle.pw_picture.specs.Grammar.{IsPicture, size_of};
ghost use Rattle.pw_picture.specs.Stored.{digit_of, value_of, number_of_chars, is_numeric_picture, read_of};

use crate::picture::Picture;
use pw_number::scaled::Scaled;

/// Each character as a digit.
static DIGITS: [u8; 256] = [
    0, 0, 0, 0, 0, 0, 0, 0, 0, 0, 0, 0, 0, 0, 0, 0, 0, 0, 0, 0, 0, 0, 0, 0, 0, 0, 0, 0, 0, 0, 0, 0,
    0, 0, 0, 0, 0, 0, 0, 0, 0, 0, 0, 0, 0, 0, 0, 0, 0, 1, 2, 3, 4, 5, 6, 7, 8, 9, 0, 0, 0, 0, 0, 0,
    0, 0, 0, 0, 0, 0, 0, 0, 0, 0, 0, 0, 0, 0, 0, 0, 0, 0, 0, 0, 0, 0, 0, 0, 0, 0, 0, 0, 0, 0, 0, 0,
    0, 0, 0, 0, 0, 0, 0, 0, 0, 0, 0, 0, 0, 0, 0, 0, 0, 0, 0, 0, 0, 0, 0, 0, 0, 0, 0, 0, 0, 0, 0, 0,
    0, 0, 0, 0, 0, 0, 0, 0, 0, 0, 0, 0, 0, 0, 0, 0, 0, 0, 0, 0, 0, 0, 0, 0, 0, 0, 0, 0, 0, 0, 0, 0,
    0, 0, 0, 0, 0, 0, 0, 0, 0, 0, 0, 0, 0, 0, 0, 0, 0, 0, 0, 0, 0, 0, 0, 0, 0, 0, 0, 0, 0, 0, 0, 0,
    0, 0, 0, 0, 0, 0, 0, 0, 0, 0, 0, 0, 0, 0, 0, 0, 0, 0, 0, 0, 0, 0, 0, 0, 0, 0, 0, 0, 0, 0, 0, 0,
    0, 0, 0, 0, 0, 0, 0, 0, 0, 0, 0, 0, 0, 0, 0, 0, 0, 0, 0, 0, 0, 0, 0, 0, 0, 0, 0, 0, 0, 0, 0, 0,
];

/// A character as a digit. One that is none counts as 0.
#[inline(always)]
fn digit_of(char: u8) -> u8
    ensures digit { result ≡ digit_of char }
    ensures bound { result < 10 }
{
    DIGITS[char as usize]
}

/// The value of at most 18 characters as digits.
#[inline]
fn value_of(chars: &[u8]) -> u64
    requires { length chars.now ≤ 18 }
    ensures value { result ≡ value_of 0 chars.now }
    ensures bound { result < 10 ^ 18 }
{
    let mut value: u64 = 0;
    for char in chars {
        value = 10 * value + digit_of(*char) as u64;
    }
    value
}

/// The number of this sign and size, with so many of its digits behind the point (docs/reference/LANGUAGE.md).
#[inline(always)]
pub fn number_with(negative: bool, size: u64, places: u8) -> Scaled
    requires size { size < 10 ^ 18 }
    requires places { places ≤ 18 }
    ensures { result ≡ number (signed negative size) places }
{
    let units = size as i128;
    let units = if negative { -units } else { units };
    Scaled::new(units, places).unwrap()
}

/// The number of so many places that characters are.
#[inline(always)]
fn number_of_chars(places: u8, sign: bool, chars: &[u8]) -> Scaled
    requires places { places ≤ 18 }
    requires few { length chars.now ≤ (if sign then 19 else 18) }
    requires some { 1 ≤ length chars.now }
    ensures { result ≡ number_of_chars places sign chars.now }
{
    if sign {
        number_with(chars[0] == b'-', value_of(&chars[1..]), places)
    } else {
        number_with(false, value_of(chars), places)
    }
}

impl Picture {
    /// The number that an item's characters are, at the picture's places. The picture is a Number.
    ///
    /// A character that is no digit counts as 0, and the number is negative exactly where the
    /// picture is signed and the first character is `-`.
    #[inline(always)]
    pub fn read_number(&self, chars: &[u8]) -> Scaled
        requires picture { IsPicture self.now }
        requires number { IsTrue (is_numeric_picture self.now) }
        requires size { length chars.now ≡ size_of self.now }
        ensures { result ≡ read_of self.now chars.now }
    {
        match self {
            Picture::Number { places, signed, .. } => number_of_chars(*places, *signed, chars),
            _ => number_with(false, 0, 0),
        }
    }
}
