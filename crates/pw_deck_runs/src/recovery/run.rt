//! The run of a system over a trail that knows which it is.

ghost use Rattle.std.specs.Prelude.{◌≡◌, ◌≤◌, IfOk, length};
ghost use Rattle.pw_code_meaning.specs.OfSystem.{behaviour};
ghost use Rattle.pw_world.specs.States.{seen};
ghost use Rattle.pw_world_model.specs.Commits.{commits_in};
ghost use Rattle.pw_world_model.specs.Seen.{state_of, sys_of};
ghost use Rattle.pw_world_model.specs.Worlds.{IsDiscOf};
ghost use Rattle.pw_paired.specs.Step.{IsRun};
ghost use Rattle.pw_paired.specs.Units.{committed_files};
ghost use Rattle.pw_deck_runs.specs.recovery.Kept.{IsKept, told_in, trail_state};
ghost use Rattle.pw_deck_runs.specs.recovery.Ran.{RanOverTrail};
ghost use Rattle.pw_tmf.specs.Committed.{committed};
ghost use Rattle.pw_tmf.specs.Faulty.{with_faults};
ghost use Rattle.pw_tmf.specs.Tmf.{told_of};

use crate::recovery::ending::{Recovered, of_ended};
use crate::recovery::kept::{KeptTrail, TrailNaming};
use pw_base::memory::Memory;
use pw_report::taken::disc_of;
use pw_trail::synced::Synced;
use pw_trail::trail::Trail;
use pw_workers::bounds::RunBounds;
use pw_workers::gate::Gate;
use pw_workers::over::{RunEnding, run_over};
use pw_world::world::World;
use pw_world_state::setup::Setup;
use std::alloc::Global;
use std::sync::Wait;
use std::thread::Threads;

/// The trail of a world. What it tells as committed are the committed records behind the log, and it has
/// counted the units that commit in the log.
pub fn trail_of<S: Synced + Send, N: TrailNaming>(world: World<KeptTrail<S, N>>) -> Trail<S>
    ensures kept { IsKept S.held S.images S.settled S.lasts N.files N.before N.life (trail_state result.log.files
        result.log.disk result.log.is_broken result.faults result.tmf) }
    ensures told { with_faults result.faults (told_of result.tmf) ≡ (seen told_in world).kept.disc }
    ensures committed { committed (told_of result.tmf)
        ≡ committed_files (sys_of (seen told_in world)) (state_of (seen told_in world)) }
    ensures run { IsRun (sys_of (seen told_in world)) (seen told_in world).log }
    ensures room { length (seen told_in world).log ≤ (seen told_in world).limit }
    ensures commits { (seen told_in world).kept.disc.commits
        ≡ commits_in (sys_of (seen told_in world)) (seen told_in world).log }
{
    disc_of(world).into_trail()
}

/// Runs a setup within bounds over a trail: how the run ended, and the trail as it left it. Where the disk
/// has failed, as many units of the log commit as its life has four calls for.
pub fn run_known<S: Synced + Send, N: TrailNaming, G: Gate, R: Threads + Wait + Sync>(
    rt: &R,
    alloc: Global,
    setup: Setup,
    trail: Trail<S>,
    bounds: RunBounds,
    gate: &G,
) -> Result<(Recovered, Trail<S>), Memory>
    requires disc { IsDiscOf setup.system setup.script (with_faults trail.faults (told_of trail.tmf)) }
    requires faults { trail.faults ≡ 0 }
    requires kept { IsKept S.held S.images S.settled S.lasts N.files N.before N.life (trail_state trail.log.files
        trail.log.disk trail.log.is_broken trail.faults trail.tmf) }
    ensures ran { IfOk result (λ ran. RanOverTrail N.files N.before N.life (behaviour setup.script setup.system)
        bounds.events ran.0 (committed (told_of ran.1.tmf))) }
    ensures files { IfOk result (λ ran. ran.1.log.files ≡ N.files) }
{
    let disc: KeptTrail<S, N> = KeptTrail::of(trail);
    let over = run_over(rt, alloc, setup, disc, bounds, gate)?;
    match over {
        RunEnding::Ended(ended, world) => Ok((of_ended(ended), trail_of(world))),
        RunEnding::Failed(world) => Ok((Recovered::Stopped, trail_of(world))),
    }
}
