//! How a run over a trail ends.

ghost use Rattle.std.specs.Prelude.{◌≡◌};
ghost use Rattle.pw_deck_runs.specs.recovery.Runs.{as_recovered};

use pw_workers::ending::LogEnding;

/// How a run over a trail has ended (docs/design/STORAGE.md).
#[derive(Clone, Copy, Debug, PartialEq, Eq)]
pub enum Recovered {
    /// Every terminal has ended, each STOPPED or NOENTRIES.
    Regular,
    /// Every terminal has ended, and one otherwise.
    Irregular,
    /// The log has as many entries as it may, and is not finished.
    Full,
    /// The disk has failed.
    Stopped,
}

/// The end of a run whose disk has not failed.
pub fn of_ended(ended: LogEnding) -> Recovered
    ensures { result ≡ as_recovered ended }
{
    match ended {
        LogEnding::Regular => Recovered::Regular,
        LogEnding::Irregular => Recovered::Irregular,
        LogEnding::Full => Recovered::Full,
    }
}
