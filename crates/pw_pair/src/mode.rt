/// The mode of a pair.
#[derive(Clone, Copy, Debug, PartialEq, Eq)]
pub enum Mode {
    /// One member works, and there is no backup.
    Alone,
    /// A backup exists and does not hold every live terminal.
    Raising,
    /// The backup holds every live terminal.
    Paired,
    /// The primary has failed, and the backup has not taken over.
    Down,
    /// No member is left.
    Gone,
}
