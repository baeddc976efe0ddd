ghost use Rattle.std.specs.Prelude.{IfErr, IfOk};
ghost use Rattle.pw_base.specs.First.{Refuses};
ghost use Rattle.pw_deck.specs.Deck.{deck_of};
ghost use Rattle.pw_deck_runs.specs.Headline.{Reports};
ghost use Rattle.pw_code_meaning.specs.OfSystem.{behaviour};
ghost use Rattle.pw_workers.specs.Endings.{IsReportOfRun};

use crate::over_tmf::run_over_tmf;
use crate::setups::setup_of;
use pw_base::bytes::Bytes;
use pw_base::fault::Refusal;
use pw_base::memory::Memory;
use pw_compiled_deck::deck::{Deck, read};
use pw_laws::serial::laws::runs_keep_their_promises;
use pw_read_back::laws::decks_are_read_back;
use pw_report::taken::report_of;
use pw_workers::bounds::RunBounds;
use pw_workers::ending::LogEnding;
use pw_workers::gate::Gate;
use pw_world_state::setup::Setup;
use std::alloc::Global;
use std::sync::Wait;
use std::thread::Threads;

/// Runs the deck of these bytes within bounds (docs/design/ARCHITECTURE.md): how the run ended, and the report of its
/// log. It refuses exactly with the deck's first fault. It may wait for a thread.
///
/// The log is a run of the deck, by the trees of its programs, and keeps what is promised of logs
/// (docs/proof/PROMISES.md): its screens and records are those of the one-copy machine on its serial order; each
/// unit number ends at most once; a pair is lost only by failures, and its terminals, and no others, end as
/// Lost; and a terminal is suspended only after its restarts. It is the log that is read back from the report.
pub fn run<G: Gate, R: Threads + Wait + Sync>(
    rt: &R,
    alloc: Global,
    bytes: &[u8],
    bounds: RunBounds,
    gate: &G,
) -> Result<(LogEnding, Bytes), Refusal>
    ensures ok { IfOk result (λ output. Reports bytes.now bounds.events output.0 output.1) }
    ensures fault { IfErr result (λ refusal. Refuses refusal (deck_of bytes.now)) }
{
    runs_keep_their_promises();
    decks_are_read_back();
    let deck = match read(alloc, bytes) {
        Ok(deck) => deck,
        Err(refusal) => return Err(refusal),
    };
    let Deck { system, script, .. } = deck;
    let setup = setup_of(system, script);
    Ok(run_setup(rt, alloc, setup, bounds, gate)?)
}

/// Runs a setup: how the run ended, and the report of its log.
fn run_setup<G: Gate, R: Threads + Wait + Sync>(
    rt: &R,
    alloc: Global,
    setup: Setup,
    bounds: RunBounds,
    gate: &G,
) -> Result<(LogEnding, Bytes), Memory>
    ensures { IfOk result (λ output. IsReportOfRun (behaviour setup.script setup.system) setup.system
        bounds.events output.0 output.1) }
{
    let (ended, world) = run_over_tmf(rt, alloc, setup, bounds, gate)?;
    let text = report_of(alloc, world)?;
    Ok((ended, text))
}
