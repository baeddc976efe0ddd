ghost use Rattle.std.specs.Prelude.{◌≡◌, ◌+◌, ◌*◌, ◌/◌, ◌%◌, ◌<◌, ◌≤◌, ◌^◌, unsigned_abs};
ghost use Rattle.std.specs.Option.{SomeIff};
ghost use Rattle.pw_number.specs.Number.{number};
ghost use Rattle.pw_number.specs.Sign.{signed, signs_differ};
ghost use Rattle.pw_number.specs.Arithmetic.{sized, divided};

use crate::power::power_of_ten;
use crate::scaled::{MAX_PLACES, Scaled};
use crate::size_error::SizeError;

/// Whether one of two numbers is negative and the other is not.
fn signs_differ(left: i128, right: i128) -> bool
    ensures { result ≡ signs_differ left right }
{
    (left < 0) != (right < 0)
}

/// The quotient of a number with more zeros behind it, where it fits.
fn long_quotient(size: u128, divisor: u128, zeros: u8) -> Option<u128>
    requires size { size < 10 ^ 18 }
    requires divisor { (0 < divisor) × (divisor < 10 ^ 18) }
    requires zeros { zeros ≤ 36 }
    ensures { SomeIff result (size * 10 ^ zeros / divisor < 2 ^ 128) (size * 10 ^ zeros / divisor) }
{
    if zeros <= MAX_PLACES {
        return Some(size * power_of_ten(zeros) / divisor);
    }
    let raised = size * power_of_ten(MAX_PLACES);
    let second = power_of_ten(zeros - MAX_PLACES);
    let front = (raised / divisor).checked_mul(second)?;
    front.checked_add(raised % divisor * second / divisor)
}

/// The quotient of two numbers with zeros behind both, where it fits.
fn quotient(size: u128, zeros: u8, divisor: u128, divisor_zeros: u8) -> Option<u128>
    requires size { size < 10 ^ 18 }
    requires zeros { zeros ≤ 36 }
    requires divisor { (0 < divisor) × (divisor < 10 ^ 18) }
    requires divisor_zeros { divisor_zeros ≤ 18 }
    ensures { SomeIff result (size * 10 ^ zeros / (divisor * 10 ^ divisor_zeros) < 2 ^ 128) (size * 10 ^ zeros / (divisor * 10 ^ divisor_zeros)) }
{
    if zeros >= divisor_zeros {
        long_quotient(size, divisor, zeros - divisor_zeros)
    } else {
        Some(size / (divisor * power_of_ten(divisor_zeros - zeros)))
    }
}

/// The number of this sign, where its units have at most 30 digits.
fn with_sign(negative: bool, size: u128, places: u8) -> Result<Scaled, SizeError>
    requires { places ≤ 18 }
    ensures { result ≡ sized (number (signed negative size) places) }
{
    let units = i128::try_from(size).ok().ok_or(SizeError)?;
    let units = if negative { -units } else { units };
    Scaled::new(units, places).ok_or(SizeError)
}

impl Scaled {
    /// The quotient, cut toward zero to these places. It is SizeError exactly where the divisor is
    /// zero, or the quotient has more than 30 digits.
    pub fn divide(self, by: Scaled, places: u8) -> Result<Scaled, SizeError>
        requires short { unsigned_abs self.units < 10 ^ 18 }
        requires by_short { unsigned_abs by.units < 10 ^ 18 }
        requires few { places ≤ 18 }
        ensures { result ≡ divided places self by }
    {
        let (units, divisor) = (self.units(), by.units());
        let divisor_size = divisor.unsigned_abs();
        if divisor_size == 0 {
            return Err(SizeError);
        }
        let zeros = by.places() + places;
        let size = quotient(units.unsigned_abs(), zeros, divisor_size, self.places());
        with_sign(signs_differ(units, divisor), size.ok_or(SizeError)?, places)
    }
}
