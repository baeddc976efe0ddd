//! The run of a system over a disc pair.

ghost use Rattle.std.specs.Prelude.{IfOk};
ghost use Rattle.pw_deck_runs.specs.disc.Pairs.{RunsOver};

use crate::disc::ending::PairRan;
use crate::reported::{ReportedRun, run_reported};
use pw_base::bytes::Bytes;
use pw_base::memory::Memory;
use pw_disc::acting::may_lose;
use pw_disc::lasting::LastingPair;
use pw_disc::pair::DiscPair;
use pw_disc::script::DiscScript;
use pw_workers::bounds::RunBounds;
use pw_workers::gate::Gate;
use pw_world_state::setup::Setup;
use std::alloc::Global;
use std::sync::Wait;
use std::thread::Threads;

/// Runs a setup within bounds over a disc pair whose members fail by this disc script (docs/design/STORAGE.md): how
/// the run ended, and the report of its log, or nothing where the pair was lost. Where the script never
/// loses the pair, it is one that lasts. It may wait for a thread.
pub fn run_pair<G: Gate, R: Threads + Wait + Sync>(
    rt: &R,
    alloc: Global,
    setup: Setup,
    failures: DiscScript,
    bounds: RunBounds,
    gate: &G,
) -> Result<(PairRan, Bytes), Memory>
    ensures { IfOk result (λ output.
        RunsOver setup.system setup.script bounds.events failures.lines output.0 output.1) }
{
    if may_lose(failures.lines.as_slice()) {
        let Ok(pair) = DiscPair::new(alloc, setup.system(), failures) else {
            setup.let_go();
            return Err(Memory);
        };
        match run_reported(rt, alloc, setup, pair, bounds, gate)? {
            ReportedRun::Ended(ended, text) => Ok((PairRan::Ended(ended), text)),
            ReportedRun::Failed(pair) => Ok((PairRan::Lost(pair), Bytes::new(alloc))),
        }
    } else {
        let Ok(pair) = LastingPair::new(alloc, setup.system(), failures) else {
            setup.let_go();
            return Err(Memory);
        };
        match run_reported(rt, alloc, setup, pair, bounds, gate)? {
            ReportedRun::Ended(ended, text) => Ok((PairRan::Ended(ended), text)),
            ReportedRun::Failed(pair) => {
                pair.known();
                unreachable!()
            }
        }
    }
}
