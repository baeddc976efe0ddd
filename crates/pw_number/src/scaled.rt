ghost use Rattle.std.specs.Prelude.{◌≡◌, ◌^◌, ◌<◌, ◌≤◌, unsigned_abs};
ghost use Rattle.pw_number.specs.Number.{number, held};

use std::marker::Model;

/// The sizes of units stay below this, so that they have at most 30 digits.
pub const UNITS_END: u128 = 1_000_000_000_000_000_000_000_000_000_000;

/// The most places behind the point.
pub const MAX_PLACES: u8 = 18;

/// A decimal number: its value is `units / 10^places`.
///
/// Its units have at most 30 digits and its places are at most `MAX_PLACES`. `==` compares units
/// and places, so 1 and 1.0 differ; `compare` compares the values. Contracts see a `Number`.
#[derive(Clone, Copy, Debug, PartialEq, Eq)]
pub struct Scaled {
    units: i128,
    places: u8,
}

impl Model for Scaled {
    ghost use Rattle.std.specs.Prelude.{◌^◌, ◌<◌, ◌≤◌, unsigned_abs};
    ghost use Rattle.pw_number.specs.Number.{Number};

    ghost Value = { Number };

    ghost view = { λ s. record { units = s.units; places = s.places } };

    ghost inverse = { λ n. record { units = n.units; places = n.places } };

    ghost invariant = { λ s. (unsigned_abs s.units < 10 ^ 30) × (s.places ≤ 18) };
}

impl Scaled {
    /// The number with these units and places. It is None exactly where the units have more than
    /// 30 digits, or the places are more than `MAX_PLACES`.
    #[inline(always)]
    pub fn new(units: i128, places: u8) -> Option<Scaled>
        ensures { result ≡ held (number units places) }
    {
        if units.unsigned_abs() < UNITS_END && places <= MAX_PLACES {
            Some(Scaled { units, places })
        } else {
            None
        }
    }

    /// The value times ten to the power of the places: a whole number of at most 30 digits.
    #[inline(always)]
    pub fn units(self) -> i128
        ensures units { result ≡ self.units }
        ensures bound { unsigned_abs result < 10 ^ 30 }
    {
        self.units
    }

    /// How many digits are behind the point, at most `MAX_PLACES`.
    #[inline(always)]
    pub fn places(self) -> u8
        ensures places { result ≡ self.places }
        ensures bound { result ≤ 18 }
    {
        self.places
    }
}
