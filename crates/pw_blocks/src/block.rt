ghost use Rattle.std.specs.Prelude.{◌≡◌, ◌+◌, ◌≤◌, ◌∷◌, ◌++◌, length, IfOk, OnOk};
ghost use Rattle.pw_base.specs.Limits.{most_content};
ghost use Rattle.pw_blocks.specs.Blocks.{first_key};
ghost use Rattle.pw_blocks.specs.Packing.{IsBlock, IsFinger, packed_all, unpacked};

use crate::packing::first_record;
use pw_base::bytes::Bytes;
use pw_base::list::List;
use pw_base::memory::Memory;
use std::alloc::Global;
use std::marker::Model;

/// The most bytes that a block has.
pub const BLOCK: usize = 4096;

/// A block of records, each after its length in 2 bytes, at most 4,096 bytes in all. Contracts see
/// the contents in order.
#[derive(Debug, Drop)]
pub struct DataBlock {
    bytes: Bytes,
    /// Where one of the records begins, or the last one ends: a key is sought from there on where it is above that
    /// record's, for records mostly come in the order of their keys.
    finger: usize,
}

impl Model for DataBlock {
    ghost use Rattle.std.specs.Prelude.{List, ℕ};
    ghost use Rattle.std.specs.Coded.{coded_list, coded_ℕ};
    ghost use Rattle.pw_blocks.specs.Packing.{IsBlock, IsFinger, unpacked};

    ghost Value = { List (List ℕ) };

    ghost coded = { coded_list (coded_list coded_ℕ) };

    ghost view = { λ block. unpacked block.bytes };

    ghost invariant = { λ block. record {
      packed : IsBlock block.bytes;
      finger : IsFinger block.bytes block.finger;
    } };
}

impl DataBlock {
    /// An equal block.
    pub fn copy(&self, alloc: Global) -> Result<DataBlock, Memory>
        ensures { IfOk result (λ block. block ≡ self.now) }
    {
        Ok(DataBlock {
            bytes: self.bytes.copy(alloc)?,
            finger: self.finger,
        })
    }

    /// The bytes of the records.
    pub fn as_slice(&self) -> &[u8]
        ensures bytes { result.now ≡ packed_all self.now }
        ensures block { IsBlock result.now }
    {
        self.bytes.as_slice()
    }

    /// A place in the bytes at which a record begins, or the last one ends.
    pub fn finger(&self) -> usize
        ensures { IsFinger (packed_all self.now) result }
    {
        self.finger
    }

    /// A block of the records of some bytes, one with this content, and the records of more bytes.
    pub fn joined(
        alloc: Global,
        before: &[u8],
        content: &[u8],
        behind: &[u8],
    ) -> Result<DataBlock, Memory>
        requires before { IsBlock before.now }
        requires behind { IsBlock behind.now }
        requires content { length content.now ≤ most_content }
        requires fits { length before.now + length content.now + 2 + length behind.now ≤ 4096 }
        ensures { IfOk result (λ block.
            block ≡ unpacked before.now ++ content.now ∷ unpacked behind.now) }
    {
        let size = content.len();
        let mut bytes = Bytes::new(alloc);
        bytes.extend(before)?;
        bytes.push((size / 256) as u8)?;
        bytes.push((size % 256) as u8)?;
        bytes.extend(content)?;
        bytes.extend(behind)?;
        Ok(DataBlock {
            bytes,
            finger: before.len(),
        })
    }

    /// A block of the records of some bytes.
    pub fn from_slice(alloc: Global, bytes: &[u8]) -> Result<DataBlock, Memory>
        requires { IsBlock bytes.now }
        ensures { IfOk result (λ block. block ≡ unpacked bytes.now) }
    {
        Ok(DataBlock {
            bytes: Bytes::from_slice(alloc, bytes)?,
            finger: 0,
        })
    }

    /// A block of the records of some bytes and of more bytes.
    pub fn beside(alloc: Global, before: &[u8], behind: &[u8]) -> Result<DataBlock, Memory>
        requires before { IsBlock before.now }
        requires behind { IsBlock behind.now }
        requires fits { length before.now + length behind.now ≤ 4096 }
        ensures { IfOk result (λ block. block ≡ unpacked before.now ++ unpacked behind.now) }
    {
        let mut bytes = Bytes::from_slice(alloc, before)?;
        bytes.extend(behind)?;
        Ok(DataBlock {
            bytes,
            finger: before.len(),
        })
    }

    /// The first key, which is empty where the block is.
    pub fn first_key(&self, alloc: Global, key_length: usize) -> Result<Bytes, Memory>
        ensures { IfOk result (λ key. key ≡ first_key key_length self.now) }
    {
        match first_record(self.as_slice()) {
            Some((content, _)) => {
                Bytes::from_slice(alloc, &content[..key_length.min(content.len())])
            }
            None => Ok(Bytes::new(alloc)),
        }
    }

    /// Puts the contents behind those of a list.
    pub fn add_to(&self, alloc: Global, records: &mut List<Bytes>) -> Result<(), Memory>
        ensures { OnOk result (records.new ≡ records.old ++ self.now) }
    {
        let mut rest = self.as_slice();
        while let Some((content, behind)) = first_record(rest) {
            records.push(Bytes::from_slice(alloc, content)?)?;
            rest = behind;
        }
        Ok(())
    }
}
