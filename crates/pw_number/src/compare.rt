ghost use Rattle.std.specs.Prelude.{◌≡◌, pos};
ghost use Rattle.std.specs.Ordering.{int_cmp};
ghost use Rattle.pw_number.specs.Order.{order};

use crate::scaled::Scaled;
use std::cmp::Ordering;

/// How a number that is too large compares with one that is not.
fn by_sign(units: i128) -> Ordering
    ensures { result ≡ int_cmp units (pos 0) }
{
    units.cmp(&0)
}

impl Scaled {
    /// How this value compares with the other. The values are compared, not the units: 1 and 1.0
    /// are equal.
    pub fn compare(&self, other: &Scaled) -> Ordering
        ensures { result ≡ order self.now other.now }
    {
        let places = self.common_places(*other);
        match (self.raised(places), other.raised(places)) {
            (Some(left), Some(right)) => left.cmp(&right),
            (None, _) => by_sign(self.units()),
            (_, None) => by_sign(other.units()).reverse(),
        }
    }
}
