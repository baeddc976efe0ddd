//! The rounds of a world on one thread.

use pw_base::memory::Memory;
use pw_pair::link::build;
use pw_tmf::disc::Disc;
use pw_world::task::run_task;
use pw_world::world::World;
use pw_world_model::answers::{Applied, Claim, Worked};
use std::alloc::Global;

/// How many rounds a scene may take.
const ROUNDS: u32 = 100_000;

/// Why rounds stop.
#[derive(Clone, Copy, Debug, PartialEq, Eq)]
pub enum Stop {
    /// The log is finished.
    Finished,
    /// Every actor that may work is out.
    Idle,
    /// An outcome was answered so, and neither pushed nor held.
    Answered(Applied),
    /// Memory ran out.
    Memory,
    /// There were too many.
    Rounds,
}

/// Hands out one task, runs it and applies what came of it. An `Err` stops the rounds.
fn round<D: Disc>(world: &mut World<D>) -> Result<(), Stop> {
    let task = match world.claim() {
        Ok(Claim::Work(task)) => task,
        Ok(Claim::Idle) => return Err(Stop::Idle),
        Ok(Claim::Finished) => return Err(Stop::Finished),
        Err(Memory) => return Err(Stop::Memory),
    };
    let Ok(outcome) = run_task(world.system(), task) else {
        return Err(Stop::Memory);
    };
    match world.apply(outcome) {
        Applied::Done | Applied::Held => Ok(()),
        answer => Err(Stop::Answered(answer)),
    }
}

/// Builds and files the image of the first message that waits for one at the first pair: whether it did.
pub fn build_image<D: Disc>(alloc: Global, world: &mut World<D>) -> bool {
    if world.system().tcps.is_empty() {
        return false;
    }
    let Ok(Some(task)) = world.lend(0) else {
        return false;
    };
    match build(alloc, task) {
        Ok(done) => world.give_back(done),
        Err(Memory) => false,
    }
}

/// Goes round until something stops that.
pub fn go_round<D: Disc>(world: &mut World<D>) -> Stop {
    for _ in 0..ROUNDS {
        if let Err(stop) = round(world) {
            return stop;
        }
    }
    Stop::Rounds
}

/// Works until something stops that, and builds an image where one is waited for.
pub fn work_on<D: Disc>(alloc: Global, world: &mut World<D>) -> Stop {
    for _ in 0..ROUNDS {
        match world.work() {
            Worked::Applied(Applied::Done | Applied::Held) => {}
            Worked::Applied(Applied::Unbuilt) if build_image(alloc, world) => {}
            Worked::Applied(answer) => return Stop::Answered(answer),
            Worked::Idle => return Stop::Idle,
            Worked::Finished => return Stop::Finished,
            Worked::Limit => return Stop::Answered(Applied::Limit),
            Worked::DiscFault => return Stop::Answered(Applied::DiscFault),
            Worked::Memory => return Stop::Memory,
        }
    }
    Stop::Rounds
}
