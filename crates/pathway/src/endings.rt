//! The status of a run by how it ended.

ghost use Rattle.std.specs.Prelude.{◌≡◌, List, ℕ};
ghost use Rattle.pathway.specs.Decks.{PairRuns, RunsDeck, Trials};
ghost use Rattle.pw_deck_runs.specs.Headline.{Reports};
ghost use Rattle.pw_deck_runs.specs.Trials.{Tries};
ghost use Rattle.pw_deck_runs.specs.disc.PairRuns.{IsPairRun};
ghost use Rattle.pw_deck_runs.specs.declared.disc.ending.PairRan.TheVariants.{Ended as PairEnded};
ghost use Rattle.pw_workers.specs.Endings.{status_of};

use pw_input_output::status::Status;
use pw_workers::ending::LogEnding;

/// The status of a run that ended so: over a disc that does not fail, over a disc pair, or of a generated deck.
pub fn status_of(ended: LogEnding) -> Status
    ensures is { result ≡ status_of ended }
    ensures runs { (events : ℕ) (bytes text : List ℕ) → Reports bytes events ended text
        → RunsDeck events result bytes text }
    ensures pairs { (events : ℕ) (bytes text : List ℕ) → IsPairRun bytes events (PairEnded ended) text
        → PairRuns events result bytes text }
    ensures trials { (seed terms : ℕ) (text : List ℕ) → Tries seed terms ended text
        → Trials seed terms result text }
{
    ended.status()
}
