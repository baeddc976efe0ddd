//! `replay`: the world behind a given log.

ghost use Rattle.std.specs.Prelude.{◌≡◌, ◌-◌, ◌<◌, ◌≤◌, ◌^◌, All, Err, IfOk, ℕ, length};
ghost use Rattle.pw_base.specs.Outside.{Rose};
ghost use Rattle.pw_code.specs.Limits.{most_log_lines};
ghost use Rattle.pw_code.specs.Valid.{IsValid};
ghost use Rattle.pw_code_meaning.specs.OfSystem.{behaviour};
ghost use Rattle.pw_world_state.specs.May.{IsLineThere};
ghost use Rattle.pw_world.specs.States.{seen};
ghost use Rattle.pw_world.specs.declared.replay.ReplayFault.TheVariants as fault;
ghost use Rattle.pw_world_model.specs.Calls.{IsFirstNoStep, IsReplayed};
ghost use Rattle.pw_world_model.specs.Worlds.{IsDiscOf};
ghost use Rattle.pw_onecopy.specs.IsBehaviour.{IsBehaviour};

use crate::world::World;
use pw_base::memory::Memory;
use pw_code::system::System;
use pw_event::event::Event;
use pw_event::script::Script;
use pw_tmf::disc::Disc;
use pw_world_model::answers::Entered;
use std::alloc::Global;

/// The most entries of a log.
pub const MAX_ENTRIES: u32 = 500_000;

/// Why a log was not replayed.
#[derive(Debug, Drop)]
pub enum ReplayFault<D> {
    /// The entry of this number, from 1, is no step.
    NotAStep(u64),
    /// The disc failed: the disc.
    DiscFault(D),
    /// There is no memory.
    Memory,
}

impl<D: Disc> World<D> {
    /// The world of this system, script and disc behind a log of at most `MAX_ENTRIES` entries. It refuses
    /// exactly with the first entry that is no step, by its number; `DiscFault` gives the disc back.
    pub fn replay(
        alloc: Global,
        system: System,
        script: Script,
        disc: D,
        log: &[Event],
    ) -> Result<World<D>, ReplayFault<D>>
        requires valid { IsValid system }
        requires deck { IsBehaviour (behaviour script.lines system) }
        requires lines { All (IsLineThere system) script.lines }
        requires few { length script.lines < 2 ^ 32 - 1 }
        requires disc { IsDiscOf system script.lines (D.told disc) }
        requires log { length log.now ≤ most_log_lines }
        ensures ok { IfOk result (λ world.
            IsReplayed system script.lines (D.told disc) log.now (seen D.told world)) }
        ensures no_step { (n : ℕ) → result ≡ Err (fault.NotAStep n)
            → IsFirstNoStep (behaviour script.lines system) log.now n }
        ensures fault { (other : D) → result ≡ Err (fault.DiscFault other)
            → Rose (D.told disc).faults (D.told other).faults }
    {
        let mut world = match World::new(alloc, system, script, disc, MAX_ENTRIES) {
            Ok(world) => world,
            Err(_) => return Err(ReplayFault::Memory),
        };
        for event in log {
            match world.enter(event) {
                Entered::Done => {}
                Entered::NotAStep => {
                    let number = world.log().len() as u64 + 1;
                    return Err(ReplayFault::NotAStep(number));
                }
                Entered::DiscFault => return Err(ReplayFault::DiscFault(world.into_disc())),
                Entered::Memory => return Err(ReplayFault::Memory),
            }
        }
        Ok(world)
    }
}
