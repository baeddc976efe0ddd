/// A change of a file behind its last sync.
#[derive(Clone, Copy, Debug, PartialEq, Eq)]
pub enum OpenChange {
    /// So many bytes were to be written from a place on.
    Wrote { at: u64, length: u64 },
    /// So many bytes were to be kept.
    Cut { length: u64 },
}
