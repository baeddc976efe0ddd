//! How the run of a deck over a disc pair ends.

use pw_disc::pair::DiscPair;
use pw_workers::ending::LogEnding;

/// How the run of a deck over a disc pair ends (docs/design/STORAGE.md).
#[derive(Debug, Drop)]
pub enum PairRan {
    /// The log is finished, or as long as it may be.
    Ended(LogEnding),
    /// The pair was lost. This is what the run left of it, and its count of faults has risen.
    Lost(DiscPair),
}
