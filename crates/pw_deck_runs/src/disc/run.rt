//! The run of a deck over a disc pair.

ghost use Rattle.std.specs.Prelude.{IfErr, IfOk};
ghost use Rattle.pw_base.specs.First.{Refuses};
ghost use Rattle.pw_deck_runs.specs.disc.PairRuns.{IsPairRun, pair_deck_of};

use crate::disc::ending::PairRan;
use crate::disc::pairs::run_pair;
use crate::setups::setup_of;
use pw_base::bytes::Bytes;
use pw_base::fault::Refusal;
use pw_compiled_deck::deck::{Deck, read};
use pw_disc::read_script::read_disc_script;
use pw_laws::serial::laws::runs_keep_their_promises;
use pw_read_back::laws::decks_are_read_back;
use pw_workers::bounds::RunBounds;
use pw_workers::gate::Gate;
use std::alloc::Global;
use std::sync::Wait;
use std::thread::Threads;

/// Runs the deck of these bytes within bounds over a disc pair whose members fail by the deck's disc
/// script (docs/design/STORAGE.md): how the run ended, and the report of its log, or nothing where the pair was
/// lost. It refuses exactly with the first fault of the deck, or else of its disc script. It may wait for
/// a thread.
///
/// What is reported is what a run over any disc reports: that the members fail is not seen. The pair is
/// lost only where a PRIMARY AFTER line stands directly behind a PRIMARY AFTER or BACKUP AFTER line.
pub fn run<G: Gate, R: Threads + Wait + Sync>(
    rt: &R,
    alloc: Global,
    bytes: &[u8],
    bounds: RunBounds,
    gate: &G,
) -> Result<(PairRan, Bytes), Refusal>
    ensures ok { IfOk result (λ output. IsPairRun bytes.now bounds.events output.0 output.1) }
    ensures fault { IfErr result (λ refusal. Refuses refusal (pair_deck_of bytes.now)) }
{
    runs_keep_their_promises();
    decks_are_read_back();
    let deck = match read(alloc, bytes) {
        Ok(deck) => deck,
        Err(refusal) => return Err(refusal),
    };
    let Deck { system, script, .. } = deck;
    let setup = setup_of(system, script);
    let failures = match read_disc_script(alloc, bytes) {
        Ok(failures) => failures,
        Err(refusal) => {
            setup.let_go();
            return Err(refusal);
        }
    };
    Ok(run_pair(rt, alloc, setup, failures, bounds, gate)?)
}
