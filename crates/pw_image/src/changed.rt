ghost use Rattle.std.specs.Prelude.{◌≡◌, ◌↔◌, true, IfOk, IsTrue};

use pw_base::bytes::Bytes;
use pw_base::list::List;
use pw_base::memory::Memory;
use pw_code::copies::Duplicate;
use pw_code::same::Same;
use std::alloc::Global;
use std::marker::Model;

/// A record of an image that is to be put in the place of another.
#[derive(Debug, Drop)]
pub struct Changed {
    /// The number of the record: it begins at 64 times this place.
    pub number: u32,
    /// Its bytes: 64, or fewer at the end of its image.
    pub bytes: Bytes,
}

/// Some records of an image, with rising numbers. Contracts see them in order.
#[derive(Debug, Drop)]
pub struct Changes {
    changed: List<Changed>,
}

impl Duplicate for Changed {
    fn copy(&self, alloc: Global) -> Result<Changed, Memory> {
        let bytes = self.bytes.copy(alloc)?;
        Ok(Changed {
            number: self.number,
            bytes,
        })
    }
}

impl Same for Changed {
    fn is_same(&self, other: &Changed) -> bool {
        self.number == other.number && self.bytes.is_same(&other.bytes)
    }
}

impl Model for Changes {
    ghost use Rattle.std.specs.Prelude.{◌≡◌, List, true};
    ghost use Rattle.pw_image.specs.declared.changed.Changed.{Changed};
    ghost use Rattle.pw_image.specs.Records.{is_rising};

    ghost Value = { List Changed };

    ghost view = { λ changes. changes.changed };

    ghost invariant = { λ changes. is_rising changes.changed ≡ true };
}

impl Changes {
    ghost use Rattle.pw_image.specs.Records.{is_rising};

    /// A list of records with rising numbers.
    pub fn from_records(changed: Vec<Changed>) -> Changes
        requires { is_rising changed.items ≡ true }
        ensures { result ≡ changed.items }
    {
        Changes {
            changed: List::from_vec(changed),
        }
    }

    /// An equal list. It costs the bytes of the records.
    pub fn copy(&self, alloc: Global) -> Result<Changes, Memory>
        ensures { IfOk result (λ copy. copy ≡ self.now) }
    {
        let changed = self.changed.copy(alloc)?;
        Ok(Changes { changed })
    }

    /// Whether the two are equal.
    pub fn is_same(&self, other: &Changes) -> bool
        ensures { IsTrue result ↔ (self.now ≡ other.now) }
    {
        self.changed.is_same(&other.changed)
    }

    /// The records, in order.
    pub fn as_slice(&self) -> &[Changed]
        ensures { result.now ≡ self.now }
    {
        self.changed.as_slice()
    }
}
