use crate::copies::Duplicate;
use pw_base::bytes::Bytes;
use pw_base::list::List;
use pw_base::memory::Memory;
use std::alloc::Global;

/// A file of a deck. No two records have the same key.
#[derive(Debug, Drop)]
pub struct FileInfo {
    pub name: Bytes,
    /// How many characters at the front of a record are its key: 1 to 255.
    pub key: u16,
    /// The records, each of the key's length to 4,000 characters.
    pub records: List<Bytes>,
}

impl Duplicate for FileInfo {
    fn copy(&self, alloc: Global) -> Result<FileInfo, Memory> {
        Ok(FileInfo {
            name: self.name.copy(alloc)?,
            key: self.key,
            records: self.records.copy(alloc)?,
        })
    }
}

/// What a server does on a file.
#[derive(Clone, Copy, Debug, PartialEq, Eq)]
pub enum FileOp {
    /// Reads the record of a key.
    Read,
    /// Reads the first record of a larger key.
    Next,
    /// Adds a record.
    Write,
    /// Replaces a record.
    Rewrite,
    /// Takes a record away.
    Delete,
    /// Reads as `Read`, and locks exclusively.
    ReadLock,
    /// Reads as `Next`, and locks exclusively.
    NextLock,
}

/// One operation on a file. `content` is the record of a write or a rewrite, and empty otherwise.
#[derive(Debug, Drop)]
pub struct FileCall {
    pub file: u32,
    pub op: FileOp,
    pub key: Bytes,
    pub content: Bytes,
}
