ghost use Rattle.std.specs.Prelude.{◌≡◌, ◌↔◌, ◌≤◌, List as ListOf, ℕ, [], ◌∷◌, IfOk, IsTrue, take, not, length};
ghost use Rattle.std.specs.Option.{option_copied};
ghost use Rattle.pw_files.specs.Files.{FileState, if_done};
ghost use Rattle.pw_files.specs.Places.{IsRecordPlace};
ghost use Rattle.pw_files.specs.Records.{IsContent, IsFile, IsKeyLength, compared, has_key, record_after, record_at, with_record, without_key};

use crate::record_file::RecordFile;
use pw_base::bytes::Bytes;
use pw_base::list::List;
use pw_base::memory::Memory;
use std::alloc::Global;
use std::cmp::Ordering;
use std::marker::Model;

/// A record file that keeps its records in one list. Contracts see the length of its keys, and its
/// records in the order of their keys.
#[derive(Debug, Drop)]
pub struct SortedFile {
    key: u16,
    records: Vec<Bytes>,
}

impl Model for SortedFile {
    ghost use Rattle.pw_files.specs.Files.{FileState};
    ghost use Rattle.pw_files.specs.Records.{IsFile};

    ghost Value = { FileState };

    ghost view = { λ file. record { key = file.key; records = file.records.items } };

    ghost invariant = { λ file. IsFile file.key file.records.items };
}

/// How the key of a content compares with a key: byte by byte, and the beginning of a key is below it
/// (docs/design/STORAGE.md). The key of a content that is shorter than a key is all of it.
pub fn compared(content: &[u8], key_length: usize, key: &[u8]) -> Ordering
    ensures { result ≡ compared key_length key.now content.now }
{
    content[..key_length.min(content.len())].cmp(key)
}

impl SortedFile {
    /// An empty file whose keys have this length, from 1 to 255. It takes no memory.
    pub fn new(alloc: Global, key: u16) -> SortedFile
        requires { IsKeyLength key }
        ensures { result ≡ record { key = key; records = [] } }
    {
        SortedFile {
            key,
            records: Vec::new(alloc),
        }
    }

    /// All records in the order of their keys.
    pub fn records(&self, alloc: Global) -> Result<List<Bytes>, Memory>
        ensures { IfOk result (λ records. records ≡ self.now.records) }
    {
        let mut records = List::new(alloc);
        for content in self.records.iter() {
            records.push(content.copy(alloc)?)?;
        }
        Ok(records)
    }

    /// An equal file.
    pub fn copy(&self, alloc: Global) -> Result<SortedFile, Memory>
        ensures { IfOk result (λ file. file ≡ self.now) }
    {
        Ok(SortedFile {
            key: self.key,
            records: self.records(alloc)?.into_vec(),
        })
    }

    /// The place of the record with this key, or at `Err` where it would stand.
    fn search(&self, key: &[u8]) -> Result<usize, usize>
        ensures place { IsRecordPlace self.now.key self.now.records key.now result }
        ensures file { IsFile self.now.key self.now.records }
    {
        let key_length = usize::from(self.key);
        self.records
            .binary_search_by(|content| compared(content.as_slice(), key_length, key))
    }

    /// The place of the record with the key of this content, or at `Err` where it would stand.
    fn place_of(&self, content: &Bytes) -> Result<usize, usize>
        requires { IsContent self.now.key content.now }
        ensures place { let n = self.now.key in
            IsRecordPlace n self.now.records (take n content.now) result }
        ensures file { IsFile self.now.key self.now.records }
    {
        self.search(&content.as_slice()[..usize::from(self.key)])
    }
}

impl RecordFile for SortedFile {
    ghost key_length = { λ file. file.key };

    ghost records = { λ file. file.records };

    fn find(&self, key: &[u8]) -> Option<&[u8]> {
        let place = self.search(key).ok()?;
        Some(self.records[place].as_slice())
    }

    fn next(&self, after: &[u8]) -> Option<&[u8]> {
        let records = self.records.as_slice();
        let place = match self.search(after) {
            Ok(place) => place + 1,
            Err(place) => place,
        };
        let content = records.get(place)?;
        Some(content.as_slice())
    }

    fn insert(&mut self, content: Bytes) -> Result<bool, Memory> {
        match self.place_of(&content) {
            Ok(_) => Ok(false),
            Err(place) => {
                self.records.insert(place, content)?;
                Ok(true)
            }
        }
    }

    fn replace(&mut self, content: Bytes) -> Result<bool, Memory> {
        match self.place_of(&content) {
            Ok(place) => {
                self.records[place] = content;
                Ok(true)
            }
            Err(_) => Ok(false),
        }
    }

    fn remove(&mut self, key: &[u8]) -> Result<bool, Memory> {
        match self.search(key) {
            Ok(place) => {
                self.records.remove(place);
                Ok(true)
            }
            Err(_) => Ok(false),
        }
    }
}
