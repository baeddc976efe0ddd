ghost use Rattle.std.specs.Prelude.{◌≡◌, ◌<◌, ◌≤◌, ◌^◌, ◌*ℤ◌, pos, Bool, false, FitsSigned, IfSome, IfNone, unsigned_abs};
ghost use Rattle.std.specs.Int.{w128};
ghost use Rattle.std.specs.Option.{SomeIff};
ghost use Rattle.pw_number.specs.Number.{number, is_short};
ghost use Rattle.pw_number.specs.Arithmetic.{sized, raised, common, sum, difference};

use crate::power::power_of_ten;
use crate::scaled::{MAX_PLACES, Scaled};
use crate::size_error::SizeError;

/// The number with these units and places, where the units have at most 30 digits.
#[inline(always)]
pub(crate) fn sized(units: i128, places: u8) -> Result<Scaled, SizeError>
    requires { places ≤ 18 }
    ensures { result ≡ sized (number units places) }
{
    Scaled::new(units, places).ok_or(SizeError)
}

/// Units with so many zeros behind them, where they fit.
#[inline(never)]
fn with_zeros(units: i128, zeros: u8) -> Option<i128>
    requires { zeros ≤ 18 }
    ensures { SomeIff result (FitsSigned w128 (units *ℤ pos (10 ^ zeros))) (units *ℤ pos (10 ^ zeros)) }
{
    units.checked_mul(power_of_ten(zeros) as i128)
}

impl Scaled {
    /// The units of the same value at its own places or at more, where they fit.
    #[inline(always)]
    pub(crate) fn raised(self, places: u8) -> Option<i128>
        requires more { self.places ≤ places }
        requires few { places ≤ 18 }
        ensures units { SomeIff result (FitsSigned w128 (raised places self)) (raised places self) }
        ensures bound { unsigned_abs self.units < 10 ^ 30 }
    {
        if places == self.places() {
            Some(self.units())
        } else {
            with_zeros(self.units(), places - self.places())
        }
    }

    /// The larger of the places of two numbers.
    pub(crate) fn common_places(self, other: Scaled) -> u8
        ensures places { result ≡ common self other }
        ensures few { result ≤ 18 }
    {
        self.places().max(other.places())
    }

    /// The units of two numbers at the larger of their places, where both fit. Where one does not,
    /// it is too large for the other to make up for.
    #[inline(always)]
    fn aligned(self, other: Scaled) -> Option<(i128, i128)>
        ensures units { IfSome result (λ pair. (pair.0 ≡ raised (common self other) self) × (pair.1 ≡ raised (common self other) other)) }
        ensures sum { IfNone result (is_short (sum self other) ≡ false) }
        ensures difference { IfNone result (is_short (difference self other) ≡ false) }
    {
        let places = self.common_places(other);
        let left = self.raised(places);
        let right = other.raised(places);
        left.zip(right)
    }

    /// The exact sum, at the larger of the two places. It is SizeError exactly where the sum has
    /// more than 30 digits.
    #[inline(always)]
    pub fn add(self, other: Scaled) -> Result<Scaled, SizeError>
        ensures { result ≡ sized (sum self other) }
    {
        let (left, right) = self.aligned(other).ok_or(SizeError)?;
        let units = left.checked_add(right).ok_or(SizeError)?;
        sized(units, self.common_places(other))
    }

    /// The exact difference, at the larger of the two places. It is SizeError exactly where the
    /// difference has more than 30 digits.
    #[inline(always)]
    pub fn subtract(self, other: Scaled) -> Result<Scaled, SizeError>
        ensures { result ≡ sized (difference self other) }
    {
        let (left, right) = self.aligned(other).ok_or(SizeError)?;
        let units = left.checked_sub(right).ok_or(SizeError)?;
        sized(units, self.common_places(other))
    }
}
