ghost use Rattle.std.specs.Prelude.{◌≡◌, ◌*◌, ◌/◌, ◌%◌, ◌<◌, ◌≤◌, ◌^◌, ◌↔◌, length, IsTrue, IsOk, if◌then◌else◌, ◌+◌};
ghost use Rattle.std.specs.Option.{SomeIff};
ghost use Rattle.pw_picture.specs.Grammar.{IsPicture, size_of};
ghost use Rattle.pw_picture.specs.Stored.{is_numeric_picture, size_at, sign_of, digits_of, chars_of, is_negative, moved, is_kept, stored};

use crate::picture::Picture;
use pw_number::power::power_of_ten;
use pw_number::scaled::Scaled;
use pw_number::size_error::SizeError;

/// Digits of which so many are decimals, with another number of decimals, where they fit.
#[inline(never)]
fn at_places(size: u128, own: u8, places: u8) -> Option<u128>
    requires own { own ≤ 18 }
    requires places { places ≤ 18 }
    ensures { SomeIff result (size * 10 ^ places / 10 ^ own < 2 ^ 128) (size * 10 ^ places / 10 ^ own) }
{
    if own >= places {
        Some(size / power_of_ten(own - places))
    } else {
        size.checked_mul(power_of_ten(places - own))
    }
}

/// The digits of a number at these places, without a point, where they fit.
#[inline(always)]
fn size_at(value: Scaled, places: u8) -> Option<u128>
    requires { places ≤ 18 }
    ensures { SomeIff result (size_at places value < 2 ^ 128) (size_at places value) }
{
    if value.places() == places {
        Some(value.units().unsigned_abs())
    } else {
        at_places(value.units().unsigned_abs(), value.places(), places)
    }
}

/// Digits of which so many are decimals, with another number of decimals, without the high ones.
#[inline(never)]
fn low_at_places(size: u128, own: u8, places: u8, digits: u8) -> u64
    requires own { own ≤ 18 }
    requires places { places ≤ 18 }
    requires digits { digits ≤ 18 }
    ensures { result ≡ size * 10 ^ places / 10 ^ own % 10 ^ digits }
{
    let end = power_of_ten(digits);
    let low = if own >= places {
        size / power_of_ten(own - places)
    } else {
        size % end * power_of_ten(places - own)
    };
    (low % end) as u64
}

/// The remainder of a number by another, which is itself where it is smaller.
#[inline(always)]
fn remainder(number: u128, by: u128) -> u128
    requires { 0 < by }
    ensures value { result ≡ number % by }
    ensures below { result < by }
{
    if number < by { number } else { number % by }
}

/// The low digits of a number at these places, without a point.
#[inline]
pub fn low_digits(value: Scaled, places: u8, digits: u8) -> u64
    requires places { places ≤ 18 }
    requires digits { digits ≤ 18 }
    ensures { result ≡ size_at places value % 10 ^ digits }
{
    if value.places() == places {
        remainder(value.units().unsigned_abs(), power_of_ten(digits)) as u64
    } else {
        low_at_places(value.units().unsigned_abs(), value.places(), places, digits)
    }
}

/// The sign of a number that shows these digits.
fn sign_of(negative: bool, size: u64) -> u8
    ensures { result ≡ sign_of negative size }
{
    if negative && size != 0 { b'-' } else { b'+' }
}

/// The two digits of each number below 100.
static PAIRS: [u8; 200] =
    *b"00010203040506070809101112131415161718192021222324252627282930313233343536373839404142434445464748495051525354555657585960616263646566676869707172737475767778798081828384858687888990919293949596979899";

/// Writes the low digits of a value, two at a time.
#[inline]
fn write_digits(size: u64, into: &mut [u8])
    ensures { into.new ≡ digits_of (length into.old) size }
{
    let mut rest = size;
    let mut at = into.len();
    while at > 1 {
        at -= 2;
        let pair = (rest % 100) as usize * 2;
        let (tens, ones) = (PAIRS[pair], PAIRS[pair + 1]);
        into[at + 1] = ones;
        into[at] = tens;
        rest /= 100;
    }
    if at == 1 {
        into[0] = b'0' + (rest % 10) as u8;
    }
}

/// Writes the low digits of a value, with a sign in front where there is one.
#[inline]
fn write_chars(digits: u8, sign: bool, negative: bool, size: u64, into: &mut [u8])
    requires { length into.old ≡ (if sign then digits + 1 else digits) }
    ensures { into.new ≡ chars_of digits sign negative size }
{
    if sign {
        let (front, back) = into.split_at_mut(1);
        front[0] = sign_of(negative, size);
        write_digits(size, back);
    } else {
        write_digits(size, into);
    }
}

/// The digits of a number as `store` keeps it: none where an integer digit would be lost, or a negative value meets no sign.
#[inline(always)]
fn kept(digits: u8, places: u8, signed: bool, value: Scaled) -> Option<u64>
    requires digits { digits ≤ 18 }
    requires places { places ≤ 18 }
    ensures { SomeIff result (IsTrue (is_kept (Picture.Number digits places signed) value)) (size_at places value % 10 ^ digits) }
{
    let size = size_at(value, places)?;
    if size < power_of_ten(digits) && (signed || value.units() >= 0) {
        Some(size as u64)
    } else {
        None
    }
}

impl Picture {
    /// Moves a number into an item: decimals beyond the picture's are cut, high digits are dropped,
    /// and the sign where there is none. The picture is a Number.
    #[inline]
    pub fn move_to(&self, value: Scaled, into: &mut [u8])
        requires picture { IsPicture self.now }
        requires number { IsTrue (is_numeric_picture self.now) }
        requires size { length into.old ≡ size_of self.now }
        ensures { into.new ≡ moved self.now value }
    {
        if let Picture::Number {
            digits,
            places,
            signed,
        } = self
        {
            let size = low_digits(value, *places, *digits);
            write_chars(*digits, *signed, value.units() < 0, size, into);
        }
    }

    /// Stores a number in an item: decimals beyond the picture's are cut. The picture is a Number.
    ///
    /// It is SizeError exactly where an integer digit would be lost, or a negative value meets no
    /// sign. Then nothing is stored.
    #[inline(always)]
    pub fn store(&self, value: Scaled, into: &mut [u8]) -> Result<(), SizeError>
        requires picture { IsPicture self.now }
        requires number { IsTrue (is_numeric_picture self.now) }
        requires size { length into.old ≡ size_of self.now }
        ensures succeeds { IsOk result ↔ IsTrue (is_kept self.now value) }
        ensures chars { into.new ≡ stored self.now value into.old }
    {
        let Picture::Number {
            digits,
            places,
            signed,
        } = self
        else {
            return Err(SizeError);
        };
        let size = kept(*digits, *places, *signed, value).ok_or(SizeError)?;
        write_chars(*digits, *signed, value.units() < 0, size, into);
        Ok(())
    }
}
