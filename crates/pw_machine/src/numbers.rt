ghost use Rattle.std.specs.Prelude.{◌≡◌, ◌≤◌, ◌<◌, ◌+◌, ◌^◌, false, length, take, drop, unsigned_abs, IsTrue};
ghost use Rattle.pw_picture.specs.Grammar.{IsPicture, size_of};
ghost use Rattle.pw_picture.specs.Stored.{read_of};
ghost use Rattle.pw_tree_meaning.specs.Values.{whole_part, number_of_text};

use pw_number::power::power_of_ten;
use pw_number::scaled::Scaled;
use pw_picture::picture::Picture;

/// The whole part of a number's value, and 0 for one below zero.
#[inline(always)]
pub fn whole_part(number: Scaled) -> u128
    ensures { result ≡ whole_part number }
{
    let units = number.units();
    if units < 0 {
        0
    } else if number.places() == 0 {
        units.unsigned_abs()
    } else {
        units.unsigned_abs() / power_of_ten(number.places())
    }
}

/// The characters from a place on.
pub fn chars_at(storage: &[u8], at: usize, size: usize) -> &[u8]
    requires { at + size ≤ length storage.now }
    ensures chars { result.now ≡ take size (drop at storage.now) }
    ensures size { length result.now ≡ size }
{
    let (_, behind) = storage.split_at(at);
    let (chars, _) = behind.split_at(size);
    chars
}

/// The number that at most 18 characters are, at these places.
#[inline(always)]
pub fn digits_in(chars: &[u8], places: u8) -> Scaled
    requires some { 1 ≤ length chars.now }
    requires few { length chars.now ≤ 18 }
    requires places { places ≤ length chars.now }
    ensures { result ≡ read_of (Picture.Number (length chars.now) places false) chars.now }
{
    let picture = Picture::Number {
        digits: chars.len() as u8,
        places,
        signed: false,
    };
    picture.read_number(chars)
}
