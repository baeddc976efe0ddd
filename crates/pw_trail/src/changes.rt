use pw_base::bytes::Bytes;
use pw_base::list::List;

/// What a change does at a key of a file.
#[derive(Clone, Copy, Debug, PartialEq, Eq)]
pub enum ChangeKind {
    /// It puts a record there, in place of the one that is there, if any.
    Put,
    /// It takes the record away.
    Remove,
}

/// A change of a file.
#[derive(Debug, Drop)]
pub struct Change {
    /// The number of the file.
    pub file: u32,
    pub kind: ChangeKind,
    /// The whole record of a put, the key of a remove.
    pub bytes: Bytes,
}

/// What a unit has changed, as the trail records it. docs/design/STORAGE.md has the format.
#[derive(Debug, Drop)]
pub struct UnitChanges {
    pub terminal: u32,
    /// The unit's number on its terminal.
    pub unit: u32,
    /// One for each key that it has changed.
    pub changes: List<Change>,
}
