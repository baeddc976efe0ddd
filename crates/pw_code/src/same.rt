ghost use Rattle.std.specs.Prelude.{◌≡◌, ◌↔◌, IsTrue};

use pw_base::bytes::Bytes;
use pw_base::list::List;

/// What can be compared with another of its kind.
pub trait Same {
    /// Whether the two are equal.
    fn is_same(&self, other: &Self) -> bool
        ensures { IsTrue result ↔ (self.now ≡ other.now) };
}

impl Same for Bytes {
    fn is_same(&self, other: &Bytes) -> bool {
        self.as_slice() == other.as_slice()
    }
}

impl<T: Same> Same for List<T> {
    fn is_same(&self, other: &List<T>) -> bool {
        let (one, two) = (self.as_slice(), other.as_slice());
        if one.len() != two.len() {
            return false;
        }
        for place in 0..one.len() {
            if !one[place].is_same(&two[place]) {
                return false;
            }
        }
        true
    }
}
