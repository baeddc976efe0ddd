ghost use Rattle.std.specs.Prelude.{◌≡◌, ◌≢◌, ◌↔◌, ◌-◌, ◌≤◌, List as ListOf, ℕ, [], ◌∷◌, All, IfOk, IsTrue, OnOk, OnErr, take, drop, suc, not, length, slice_get, slice_index_or};
ghost use Rattle.std.specs.Option.{option_copied};
ghost use Rattle.pw_files.specs.Files.{if_done};
ghost use Rattle.pw_files.specs.Records.{IsContent, IsFile, IsKeyLength, has_key, with_record, without_key};
ghost use Rattle.pw_blocks.specs.Blocks.{BlocksState, IsHome, records_of, with_blocks};
ghost use Rattle.pw_blocks.specs.Cuts.{IsCut};
ghost use Rattle.pw_blocks.specs.Packing.{IsBlock, IsFinger, unpacked};
ghost use Rattle.pw_blocks.specs.Seats.{IsSeat};
ghost use Rattle.pw_blocks.specs.Splits.{IfChanged, IsRecordRemoved, IsRecordWritten};

use crate::block::DataBlock;
use crate::cut::{Cut, cut_at};
use crate::packing::first_record;
use crate::pieces::{copies, first_keys, pieces, rest};
use crate::splice::put_in_place;
use pw_base::bytes::Bytes;
use pw_base::list::List;
use pw_base::memory::Memory;
use pw_files::record_file::RecordFile;
use std::alloc::Global;
use std::marker::Model;

/// A record file that keeps its records in blocks of at most 4,096 bytes, with an index of their
/// first keys. Contracts see the length of its keys, and the records of each block in order.
#[derive(Debug, Drop)]
pub struct BlockFile {
    key: u16,
    index: Vec<Bytes>,
    blocks: Vec<DataBlock>,
}

impl Model for BlockFile {
    ghost use Rattle.pw_blocks.specs.Blocks.{BlocksState, IsBlockFile};

    ghost Value = { BlocksState };

    ghost view = { λ file. record { key = file.key; blocks = file.blocks.items } };

    ghost invariant = { λ file. IsBlockFile file.key file.blocks.items file.index.items };
}

impl BlockFile {
    /// An empty file whose keys have this length, from 1 to 255.
    pub fn new(alloc: Global, key: u16) -> Result<BlockFile, Memory>
        requires { IsKeyLength key }
        ensures { result ≡ Ok (record { key = key; blocks = [] }) }
    {
        Ok(BlockFile {
            key,
            index: Vec::new(alloc),
            blocks: Vec::new(alloc),
        })
    }

    /// The length of the keys.
    pub fn key_length(&self) -> usize
        ensures length { result ≡ self.now.key }
        ensures file { IsFile self.now.key (records_of self.now.blocks) }
    {
        usize::from(self.key)
    }

    /// The number of blocks.
    pub fn blocks(&self) -> usize
        ensures { result ≡ length self.now.blocks }
    {
        self.blocks.len()
    }

    /// All records in the order of their keys.
    pub fn records(&self, alloc: Global) -> Result<List<Bytes>, Memory>
        ensures { IfOk result (λ records. records ≡ records_of self.now.blocks) }
    {
        let mut records = List::new(alloc);
        for block in self.blocks.iter() {
            block.add_to(alloc, &mut records)?;
        }
        Ok(records)
    }

    /// An equal file, with the same blocks.
    pub fn copy(&self, alloc: Global) -> Result<BlockFile, Memory>
        ensures { IfOk result (λ file. file ≡ self.now) }
    {
        let blocks = copies(alloc, &self.blocks)?;
        let index = first_keys(alloc, &blocks, usize::from(self.key))?;
        Ok(BlockFile {
            key: self.key,
            index,
            blocks,
        })
    }

    /// The place of the only block that may have a record with this key. It is 0 in an empty file.
    fn home(&self, key: &[u8]) -> usize
        ensures { IsHome self.now.key self.now.blocks key.now result }
    {
        self.index
            .partition_point(|first| first.as_slice().cmp(key).is_le())
            .saturating_sub(1)
    }

    /// The bytes of the block at a place, none past the last one, and its finger.
    fn contents(&self, place: usize) -> (&[u8], usize)
        ensures block { IsBlock result.0.now }
        ensures finger { IsFinger result.0.now result.1 }
        ensures records { unpacked result.0.now ≡ slice_index_or self.now.blocks place [] }
    {
        match self.blocks.get(place) {
            Some(block) => (block.as_slice(), block.finger()),
            None => (&[], 0),
        }
    }

    /// The place of the block round a key, and what lies round the key in it.
    fn seek(&self, key: &[u8]) -> (usize, Cut<'_>)
        ensures seat { IsSeat self.now.key self.now.blocks key.now result.0 result.1 }
        ensures home { IsHome self.now.key self.now.blocks key.now result.0 }
        ensures cut { IsCut self.now.key (slice_index_or self.now.blocks result.0 []) key.now result.1 }
        ensures file { IsFile self.now.key (records_of self.now.blocks) }
    {
        let place = self.home(key);
        let (bytes, finger) = self.contents(place);
        (place, cut_at(bytes, finger, usize::from(self.key), key))
    }

    /// The first record of the block behind a place, None exactly where that is the last one.
    fn first_behind(&self, place: usize) -> Option<&[u8]>
        requires { place ≤ length self.now.blocks - 1 }
        ensures { option_copied result
            ≡ slice_get (records_of (drop (suc place) self.now.blocks)) 0 }
    {
        let block = self.blocks.get(place + 1)?;
        let (content, _) = first_record(block.as_slice())?;
        Some(content)
    }

    /// Puts blocks in place of one, or into an empty file. An `Err` leaves the file as it was.
    fn put(&mut self, place: usize, blocks: Vec<DataBlock>) -> Result<(), Memory>
        requires within { place ≤ length self.old.blocks - 1 }
        requires none_empty { All (λ block. block ≢ []) blocks.items }
        requires file { IsFile self.old.key (records_of (with_blocks self.old.blocks place blocks.items)) }
        ensures ok { OnOk result (self.new
            ≡ record { key = self.old.key; blocks = with_blocks self.old.blocks place blocks.items }) }
        ensures err { OnErr result (self.new ≡ self.old) }
    {
        let alloc = *self.blocks.allocator();
        let index = first_keys(alloc, &blocks, usize::from(self.key))?;
        if place < self.blocks.len() {
            self.index.reserve(index.len())?;
            self.blocks.reserve(blocks.len())?;
            put_in_place(&mut self.index, place, index);
            put_in_place(&mut self.blocks, place, blocks);
        } else {
            self.index = index;
            self.blocks = blocks;
        }
        Ok(())
    }

    /// Puts a content in its place. It is false, and changes nothing, where `there` does not tell whether
    /// a record with its key is there.
    fn write(&mut self, content: &[u8], there: bool) -> Result<bool, Memory>
        requires { IsContent self.old.key content.now }
        ensures answer { let n = self.old.key in IfOk result (λ done. IsTrue done
            ↔ (has_key n (records_of self.old.blocks) (take n content.now) ≡ there)) }
        ensures records { records_of self.new.blocks ≡ if_done result
            (with_record self.old.key (records_of self.old.blocks) content.now)
            (records_of self.old.blocks) }
        ensures key { self.new.key ≡ self.old.key }
        ensures file { IsFile self.new.key (records_of self.new.blocks) }
        ensures blocks { IfChanged result (IsRecordWritten self.old.key self.old.blocks content.now self.new.blocks)
            (self.new.blocks ≡ self.old.blocks) }
    {
        let alloc = *self.blocks.allocator();
        let (place, cut) = self.seek(&content[..usize::from(self.key)]);
        if cut.here.is_some() != there {
            return Ok(false);
        }
        let parts = pieces(alloc, cut.before, content, cut.behind)?;
        self.put(place, parts)?;
        Ok(true)
    }
}

impl RecordFile for BlockFile {
    ghost key_length = { λ file. file.key };

    ghost use Rattle.pw_blocks.specs.Blocks.{records_of};

    ghost records = { λ file. records_of file.blocks };

    fn find(&self, key: &[u8]) -> Option<&[u8]> {
        let (_, cut) = self.seek(key);
        cut.here
    }

    fn next(&self, after: &[u8]) -> Option<&[u8]> {
        let (place, cut) = self.seek(after);
        match first_record(cut.behind) {
            Some((content, _)) => Some(content),
            None => self.first_behind(place),
        }
    }

    /// Its block stays one where the content fits into it, and else becomes two, or three where the content fits beside
    /// neither part.
    fn insert(&mut self, content: Bytes) -> Result<bool, Memory>
        requires { IsContent self.old.key content }
        ensures answer { let n = self.old.key in
            IfOk result (λ is_new. is_new ≡ not (has_key n (records_of self.old.blocks) (take n content))) }
        ensures records { records_of self.new.blocks ≡ if_done result
            (with_record self.old.key (records_of self.old.blocks) content) (records_of self.old.blocks) }
        ensures key_length { self.new.key ≡ self.old.key }
        ensures file { IsFile self.new.key (records_of self.new.blocks) }
        ensures blocks { IfChanged result (IsRecordWritten self.old.key self.old.blocks content self.new.blocks)
            (self.new.blocks ≡ self.old.blocks) }
    {
        self.write(content.as_slice(), false)
    }

    /// Its block stays one where the content fits into it, and else becomes two, or three where the content fits beside
    /// neither part.
    fn replace(&mut self, content: Bytes) -> Result<bool, Memory>
        requires { IsContent self.old.key content }
        ensures answer { let n = self.old.key in
            IfOk result (λ is_there. is_there ≡ has_key n (records_of self.old.blocks) (take n content)) }
        ensures records { records_of self.new.blocks ≡ if_done result
            (with_record self.old.key (records_of self.old.blocks) content) (records_of self.old.blocks) }
        ensures key_length { self.new.key ≡ self.old.key }
        ensures file { IsFile self.new.key (records_of self.new.blocks) }
        ensures blocks { IfChanged result (IsRecordWritten self.old.key self.old.blocks content self.new.blocks)
            (self.new.blocks ≡ self.old.blocks) }
    {
        self.write(content.as_slice(), true)
    }

    /// Its block stays one, and goes away exactly where this was its last record.
    fn remove(&mut self, key: &[u8]) -> Result<bool, Memory>
        ensures answer { IfOk result (λ is_there.
            is_there ≡ has_key self.old.key (records_of self.old.blocks) key.now) }
        ensures records { records_of self.new.blocks ≡ if_done result
            (without_key self.old.key (records_of self.old.blocks) key.now) (records_of self.old.blocks) }
        ensures key_length { self.new.key ≡ self.old.key }
        ensures file { IsFile self.new.key (records_of self.new.blocks) }
        ensures blocks { IfChanged result (IsRecordRemoved self.old.key self.old.blocks key.now self.new.blocks)
            (self.new.blocks ≡ self.old.blocks) }
    {
        let alloc = *self.blocks.allocator();
        let (place, cut) = self.seek(key);
        if cut.here.is_none() {
            return Ok(false);
        }
        let parts = rest(alloc, cut.before, cut.behind)?;
        self.put(place, parts)?;
        Ok(true)
    }
}
