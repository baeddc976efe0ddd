use crate::copies::Duplicate;
use pw_base::bytes::Bytes;
use pw_base::list::List;
use pw_base::memory::Memory;
use std::alloc::Global;
use std::marker::Model;

/// The largest number of a key.
pub const MAX_KEY: u8 = 32;

/// The most pairs that an entry line has: the cells of the rows that have fields.
pub const MAX_PAIRS: usize = 1840;

/// What is keyed in at a terminal at once: a key, and values for fields of the screen. It has at most `MAX_PAIRS` pairs.
#[derive(Debug, Drop)]
pub struct EntryLine {
    /// The key: 1 to 16 for F1 to F16, 17 to 32 for SF1 to SF16.
    pub key: u8,
    /// The names of fields with their values.
    pub fields: List<(Bytes, Bytes)>,
}

impl Model for EntryLine {
    ghost use Rattle.pw_code.specs.Entry.{EntryLineModel, IsEntry};

    ghost Value = { EntryLineModel };

    ghost view = { λ line. record { key = line.key; fields = line.fields } };

    ghost invariant = { λ line. IsEntry (record { key = line.key; fields = line.fields }) };
}

impl Duplicate for EntryLine {
    fn copy(&self, alloc: Global) -> Result<EntryLine, Memory> {
        let fields = self.fields.copy(alloc)?;
        Ok(EntryLine {
            key: self.key,
            fields,
        })
    }
}
