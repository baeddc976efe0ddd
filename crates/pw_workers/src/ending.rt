//! How the log of a run stands at its end.

ghost use Rattle.std.specs.Prelude.{◌≡◌};
ghost use Rattle.pw_workers.specs.Endings.{all_regular, is_regular, status_of};

use pw_event::event::{Ending, Event};
use pw_input_output::status::Status;

/// How the log of a run stands at its end (docs/design/ARCHITECTURE.md).
#[derive(Clone, Copy, Debug, PartialEq, Eq)]
pub enum LogEnding {
    /// Every terminal has ended, each STOPPED or NOENTRIES.
    Regular,
    /// Every terminal has ended, and one otherwise.
    Irregular,
    /// The log has as many entries as it may, and is not finished.
    Full,
}

impl LogEnding {
    /// The status of a call that has run so: `Finished`, `Irregular` or `Limit`.
    pub fn status(self) -> Status
        ensures { result ≡ status_of self }
    {
        match self {
            LogEnding::Regular => Status::Finished,
            LogEnding::Irregular => Status::Irregular,
            LogEnding::Full => Status::Limit,
        }
    }
}

/// Whether an entry ends no terminal, or one that stopped or had no entry lines left.
fn is_regular(entry: &Event) -> bool
    ensures { result ≡ is_regular entry.now }
{
    match entry {
        Event::End { ending, .. } => matches!(ending, Ending::Stopped | Ending::NoEntries),
        _ => true,
    }
}

/// Whether each ending of a log is STOPPED or NOENTRIES.
pub fn are_regular(log: &[Event]) -> bool
    ensures { result ≡ all_regular log.now }
{
    log.iter().all(|entry| is_regular(entry))
}
