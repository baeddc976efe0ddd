//! A run of a setup over any disc, with its report.

ghost use Rattle.std.specs.Prelude.{IfOk};
ghost use Rattle.pw_deck_runs.specs.ReportedRuns.{RunsReported};
ghost use Rattle.pw_world_model.specs.Worlds.{IsDiscOf};

use pw_base::bytes::Bytes;
use pw_base::memory::Memory;
use pw_report::taken::report_of;
use pw_tmf::disc::Disc;
use pw_workers::bounds::RunBounds;
use pw_workers::ending::LogEnding;
use pw_workers::gate::Gate;
use pw_workers::over::{RunEnding, run_over};
use pw_world_state::setup::Setup;
use std::alloc::Global;
use std::sync::Wait;
use std::thread::Threads;

/// What a run over a disc comes to.
#[derive(Drop)]
pub enum ReportedRun<D: Disc> {
    /// It has ended so, and this is the report of its log.
    Ended(LogEnding, Bytes),
    /// The disc has failed, and the log is neither finished nor full. This is what the run left of the disc.
    Failed(D),
}

/// Runs a setup within bounds over a disc of its system (docs/design/ARCHITECTURE.md): how the run ended, with the report of
/// its log, or the disc that has failed. It may wait for a thread.
pub fn run_reported<D: Disc, G: Gate, R: Threads + Wait + Sync>(
    rt: &R,
    alloc: Global,
    setup: Setup,
    disc: D,
    bounds: RunBounds,
    gate: &G,
) -> Result<ReportedRun<D>, Memory>
    requires { IsDiscOf setup.system setup.script (D.told disc) }
    ensures { IfOk result (RunsReported D.told setup.system setup.script bounds.events disc) }
{
    match run_over(rt, alloc, setup, disc, bounds, gate)? {
        RunEnding::Ended(ended, world) => Ok(ReportedRun::Ended(ended, report_of(alloc, world)?)),
        RunEnding::Failed(world) => {
            world.holds();
            Ok(ReportedRun::Failed(world.into_disc()))
        }
    }
}
