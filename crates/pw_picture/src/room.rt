ghost use Rattle.std.specs.Prelude.{◌≡◌};
ghost use Rattle.pw_picture.specs.Room.{whole_digits, decimals_of, has_sign};

use crate::edit::{digit_symbols, places_of};
use crate::picture::Picture;

/// The room that a picture has for a number. A Text has none.
impl Picture {
    /// How many digits it has before the point.
    pub fn whole_digits(&self) -> usize
        ensures { result ≡ whole_digits self.now }
    {
        match self {
            Picture::Text { .. } => 0,
            Picture::Number { digits, places, .. } => digits.saturating_sub(*places) as usize,
            Picture::Edited { symbols } => {
                digit_symbols(symbols.as_slice()) - places_of(symbols.as_slice())
            }
        }
    }

    /// How many digits it has behind the point.
    pub fn decimals(&self) -> usize
        ensures { result ≡ decimals_of self.now }
    {
        match self {
            Picture::Text { .. } => 0,
            Picture::Number { places, .. } => *places as usize,
            Picture::Edited { symbols } => places_of(symbols.as_slice()),
        }
    }

    /// Whether it has a place for a sign.
    pub fn has_sign(&self) -> bool
        ensures { result ≡ has_sign self.now }
    {
        match self {
            Picture::Text { .. } => false,
            Picture::Number { signed, .. } => *signed,
            Picture::Edited { symbols } => symbols.as_slice().contains(&b'-'),
        }
    }
}
