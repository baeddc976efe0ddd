//! The run of a system over the trail of a store.

ghost use Rattle.std.specs.Prelude.{◌≡◌, ◌≤◌, [], IfOk, Ok};
ghost use Rattle.pw_code_meaning.specs.OfSystem.{behaviour};
ghost use Rattle.pw_store_runs.specs.Left.{RunsStored};
ghost use Rattle.pw_tmf.specs.Faulty.{with_faults};
ghost use Rattle.pw_tmf.specs.Tmf.{told_of};
ghost use Rattle.pw_trail.specs.Calls.{DiskHoldsUnits, moment};
ghost use Rattle.pw_world_model.specs.Worlds.{IsDiscOf};

use crate::asked::FollowedRun;
use crate::ending::Stored;
use pw_base::memory::Memory;
use pw_group_commit::follower::Follower;
use pw_group_commit::group_log::LogNaming;
use pw_group_commit::group_trail::GroupTrail;
use pw_report::report::report;
use pw_report::taken::disc_of;
use pw_trail::synced::Synced;
use pw_trail::trail::Trail;
use pw_volume::fault::WriteFault;
use pw_workers::gate::Gate;
use pw_workers::over::{RunEnding, run_over};
use pw_world_state::setup::Setup;
use std::alloc::Global;
use std::sync::Wait;
use std::thread::Threads;

/// Runs a setup over a trail as it is asked (docs/guide/STORE.md): how the run ended, with the report of its log, and the disk and the
/// follower as it left them. It may wait for a thread.
pub fn run_kept<
    S: Synced + Send,
    N: LogNaming + Send + Sync,
    F: Follower + Send,
    G: Gate,
    R: Threads + Wait + Sync,
>(
    rt: &R,
    alloc: Global,
    setup: Setup,
    trail: Trail<S>,
    run: FollowedRun<'_, F, G>,
) -> Result<Stored<S, F>, Memory>
    requires disc { IsDiscOf setup.system setup.script (with_faults trail.faults (told_of trail.tmf)) }
    requires files { trail.log.files ≡ N.files }
    requires stands { DiskHoldsUnits S.held S.images (moment trail.log.files trail.log.disk trail.log.is_broken)
        (Ok N.before) }
    requires count { N.least ≤ S.faulted trail.log.disk }
    requires faults { trail.faults ≡ 0 }
    requires told { F.was_told run.follower [] }
    ensures { IfOk result (RunsStored S.images S.faulted F.was_told N.files N.before N.least (behaviour setup.script setup.system)
        setup.system run.entry.bounds.events) }
{
    let FollowedRun {
        bounds,
        gate,
        follower,
    } = run;
    let disc: GroupTrail<S, N, F> = GroupTrail::new(trail, follower)?;
    let over = run_over(rt, alloc, setup, disc, bounds, gate)?;
    match over {
        RunEnding::Ended(ended, world) => {
            let text = report(alloc, &world);
            let mut disc = disc_of(world);
            match disc.flush() {
                Ok(()) => {
                    let (disk, follower) = disc.close();
                    match text {
                        Ok(text) => Ok(Stored::Ended(ended, text, disk, follower)),
                        Err(Memory) => Err(Memory),
                    }
                }
                Err(WriteFault::Failed) => {
                    let (disk, follower) = disc.close();
                    Ok(Stored::Failed(disk, follower))
                }
                Err(WriteFault::Memory) => Err(Memory),
            }
        }
        RunEnding::Failed(world) => {
            let disc = disc_of(world);
            let (disk, follower) = disc.close();
            Ok(Stored::Failed(disk, follower))
        }
    }
}

/// Shows that a crash may leave what the last sync left. It does nothing.
pub fn know_last<S: Synced>(trail: &Trail<S>)
    ensures { S.images trail.now.log.disk (S.settled trail.now.log.disk) }
{
    let _disk = &trail.log.disk;
}
