/// How many members of a disc pair there are.
#[derive(Clone, Copy, Debug, PartialEq, Eq)]
pub enum DiscPairState {
    /// A primary and its backup.
    Two,
    /// A single member.
    One,
    /// None: the pair is lost.
    Lost,
}
