ghost use Rattle.std.specs.Prelude.{◌≡◌, ◌+◌, ◌*◌, ◌^◌, ◌<◌, ◌≤◌, min};
ghost use Rattle.std.specs.Prelude.{pos, filter, IfOk, unwrap_or, if◌then◌else◌};
ghost use Rattle.std.specs.Char.{is_ascii_digit};
ghost use Rattle.pw_picture.specs.Stored.{value_of, digit_of};
ghost use Rattle.pw_number.specs.Number.{number};
ghost use Rattle.pw_compile.specs.Operands.{subscript_number};
ghost use Rattle.pw_data.specs.Literals.{number_of_literal};

use pw_base::memory::Memory;
use pw_data::literal::number_of;
use pw_number::scaled::Scaled;

/// The sum of two sizes or places. It is an `Err` where it does not fit, where the code would have
/// no memory either.
pub fn add(a: u32, b: u32) -> Result<u32, Memory>
    ensures sum { IfOk result (λ sum. sum ≡ a + b) }
    ensures fits { IfOk result (λ sum. sum < 2 ^ 32) }
{
    a.checked_add(b).ok_or(Memory)
}

/// A number of a thing as it stands in code.
pub fn as_number(number: usize) -> Result<u32, Memory>
    ensures { IfOk result (λ found. found ≡ number) }
{
    match u32::try_from(number) {
        Ok(found) => Ok(found),
        Err(_) => Err(Memory),
    }
}

/// A value with one more character behind it, where every value above `most` is as `most`.
fn further(value: u64, byte: u8, most: u32) -> u64
    requires { value ≤ most }
    ensures value { result ≡ min
        (if is_ascii_digit byte then 10 * value + digit_of byte else value) most }
    ensures bound { result ≤ most }
{
    if byte.is_ascii_digit() {
        (10 * value + (byte - b'0') as u64).min(most as u64)
    } else {
        value
    }
}

/// The value of the digits of a spelling, where every value above `most` is as `most`.
fn digits_in(spelling: &[u8], most: u32) -> u64
    ensures { result ≡ min (value_of 0 (filter is_ascii_digit spelling.now)) most }
{
    let mut value: u64 = 0;
    for byte in spelling {
        value = further(value, *byte, most);
    }
    value
}

/// The value of a number that is a subscript, where every value above `most` is as `most`.
pub fn number_in(spelling: &[u8], most: u32) -> u64
    ensures { result ≡ min (subscript_number spelling.now) most }
{
    match spelling {
        [b'-', ..] => 0,
        [_, ..] | [] => digits_in(spelling, most),
    }
}

/// The number 0.
fn zero() -> Scaled
    ensures { result ≡ number (pos 0) 0 }
{
    Scaled::new(0, 0).unwrap()
}

/// The value of a number as it is written, and 0 for what is no number.
pub fn value_of(spelling: &[u8]) -> Scaled
    ensures { result ≡ unwrap_or (number_of_literal spelling.now) (number (pos 0) 0) }
{
    match number_of(spelling) {
        Some(value) => value,
        None => zero(),
    }
}
