ghost use Rattle.std.specs.Prelude.{◌≡◌, ◌<◌, ◌≤◌, ◌^◌, pos, int_div, unsigned_abs};
ghost use Rattle.pw_number.specs.Arithmetic.{sized, cut, product};

use crate::add::sized;
use crate::power::power_of_ten;
use crate::scaled::{MAX_PLACES, Scaled};
use crate::size_error::SizeError;

/// Units without as many digits at their end, cut toward zero.
fn without_digits(units: i128, digits: u8) -> i128
    requires { digits ≤ 38 }
    ensures { result ≡ int_div units (pos (10 ^ digits)) }
{
    if digits == 0 {
        units
    } else {
        units / power_of_ten(digits) as i128
    }
}

impl Scaled {
    /// The product at the sum of the places, cut toward zero to `MAX_PLACES`. It is SizeError
    /// exactly where that has more than 30 digits.
    pub fn multiply(self, other: Scaled) -> Result<Scaled, SizeError>
        requires short { unsigned_abs self.units < 10 ^ 18 }
        requires other_short { unsigned_abs other.units < 10 ^ 18 }
        ensures { result ≡ sized (cut 18 (product self other)) }
    {
        let all_places = self.places() + other.places();
        let places = all_places.min(MAX_PLACES);
        let units = self.units() * other.units();
        sized(without_digits(units, all_places - places), places)
    }
}
