//! A run of a system over a disc that may fail.

ghost use Rattle.std.specs.Prelude.{◌≡◌, IfOk, true};
ghost use Rattle.pw_world.specs.States.{seen};
ghost use Rattle.pw_world_model.specs.Seen.{finished, sys_of};
ghost use Rattle.pw_world_model.specs.Worlds.{IsDiscOf};
ghost use Rattle.pw_workers.specs.Endings.{EndsAs};
ghost use Rattle.pw_workers.specs.Over.{LeavesWorld};

use crate::bounds::RunBounds;
use crate::end::RunEnd;
use crate::ending::{LogEnding, are_regular};
use crate::gate::Gate;
use crate::workers::run_workers;
use pw_base::memory::Memory;
use pw_tmf::disc::Disc;
use pw_world::world::World;
use pw_world_state::setup::Setup;
use std::alloc::Global;
use std::sync::Wait;
use std::thread::Threads;

/// What the run of a system over a disc comes to, with the world that it leaves.
#[derive(Drop)]
pub enum RunEnding<D: Disc> {
    /// The run has ended so.
    Ended(LogEnding, World<D>),
    /// The disc has failed, and the log is neither finished nor full.
    Failed(World<D>),
}

/// Runs a setup over a disc of its system within bounds (docs/design/ARCHITECTURE.md): the world of this system, script
/// and limit over this disc, whose log has ended so or whose disc has failed. It may wait for a thread.
pub fn run_over<D: Disc, G: Gate, R: Threads + Wait + Sync>(
    rt: &R,
    alloc: Global,
    setup: Setup,
    disc: D,
    bounds: RunBounds,
    gate: &G,
) -> Result<RunEnding<D>, Memory>
    requires { IsDiscOf setup.system setup.script (D.told disc) }
    ensures { IfOk result (LeavesWorld D.told setup.system setup.script bounds.events disc) }
{
    let (system, script) = setup.into_parts();
    let first = World::new(alloc, system, script, disc, bounds.events)?;
    let (world, end) = run_workers(rt, alloc, first, bounds.workers, gate);
    match end {
        RunEnd::Finished => {
            let ended = ended_as(&world);
            Ok(RunEnding::Ended(ended, world))
        }
        RunEnd::Limit => Ok(RunEnding::Ended(LogEnding::Full, world)),
        RunEnd::DiscFault => Ok(RunEnding::Failed(world)),
        RunEnd::Memory => Err(Memory),
    }
}

/// How a log has ended that is finished.
fn ended_as<D: Disc>(world: &World<D>) -> LogEnding
    requires { finished (seen D.told world.now) ≡ true }
    ensures { EndsAs result world.now.limit (sys_of (seen D.told world.now)) world.now.ledger.log }
{
    if are_regular(world.log()) {
        LogEnding::Regular
    } else {
        LogEnding::Irregular
    }
}
