//! A run of a system over the records of its files, which never fail.

ghost use Rattle.std.specs.Prelude.{◌≡◌, IfOk};
ghost use Rattle.pw_code_meaning.specs.OfSystem.{behaviour};
ghost use Rattle.pw_workers.specs.Endings.{EndsAs};

use pw_base::memory::Memory;
use pw_tmf::tmf::Tmf;
use pw_workers::bounds::RunBounds;
use pw_workers::ending::LogEnding;
use pw_workers::gate::Gate;
use pw_workers::over::{RunEnding, run_over};
use pw_world::world::World;
use pw_world_state::setup::Setup;
use std::alloc::Global;
use std::sync::Wait;
use std::thread::Threads;

/// Runs a setup within bounds: how the run ended, and the world that it left. It may wait for a thread.
pub fn run_over_tmf<G: Gate, R: Threads + Wait + Sync>(
    rt: &R,
    alloc: Global,
    setup: Setup,
    bounds: RunBounds,
    gate: &G,
) -> Result<(LogEnding, World<Tmf>), Memory>
    ensures system { IfOk result (λ ran. ran.1.keep.system ≡ setup.system) }
    ensures script { IfOk result (λ ran. ran.1.script ≡ setup.script) }
    ensures ended { IfOk result (λ ran. EndsAs ran.0 bounds.events (behaviour setup.script setup.system)
        ran.1.ledger.log) }
{
    let Ok(disc) = Tmf::new(alloc, setup.system()) else {
        setup.let_go();
        return Err(Memory);
    };
    match run_over(rt, alloc, setup, disc, bounds, gate)? {
        RunEnding::Ended(ended, world) => Ok((ended, world)),
        RunEnding::Failed(world) => {
            world.into_disc();
            unreachable!()
        }
    }
}
