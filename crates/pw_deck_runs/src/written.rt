//! A run whose report is written.

ghost use Rattle.std.specs.Prelude.{◌≡◌, ◌-◌, ◌<◌, ◌≤◌, ◌^◌, All, length};
ghost use Rattle.pw_input_output.specs.Numbers.{status_number};
ghost use Rattle.pw_code.specs.Limits.{most_log_lines};
ghost use Rattle.pw_code.specs.Valid.{IsValid};
ghost use Rattle.pw_code_meaning.specs.OfSystem.{behaviour};
ghost use Rattle.pw_world_state.specs.May.{IsLineThere};
ghost use Rattle.pw_world_model.specs.Worlds.{IsDiscOf};
ghost use Rattle.pw_onecopy.specs.IsBehaviour.{IsBehaviour};
ghost use Rattle.pw_deck_runs.specs.WrittenRuns.{IsSure, RunsWith};

use pw_base::memory::Memory;
use pw_base::sink::Sink;
use pw_code::system::System;
use pw_event::script::Script;
use pw_input_output::output::written;
use pw_input_output::status::Status;
use pw_report::report::report;
use pw_tmf::disc::Disc;
use pw_workers::bounds::RunBounds;
use pw_workers::gate::Gate;
use pw_workers::over::{RunEnding, run_over};
use pw_world_state::setup::Setup;
use std::alloc::Global;
use std::sync::Wait;
use std::thread::Threads;

/// The exit status of a run, and the disc as the run left it: None at status 6 alone.
#[derive(Drop)]
pub struct Ran<D: Disc> {
    /// 0, 1, 3, 5, 6 or 9.
    pub status: u8,
    pub disc: Option<D>,
}

/// Runs a system over a disc of it with from 1 to 16 workers, for at most so many entries, and writes
/// the report of its log (docs/design/ARCHITECTURE.md). It may wait for a thread.
///
/// The status is 0, 1 or 3 by the run's end, with the whole report; 5 only where the sink failed,
/// with a beginning of it; 9 only where the disc failed, with nothing written; or 6, for want of memory.
pub fn run_with<D: Disc, K: Sink, G: Gate, R: Threads + Wait + Sync>(
    rt: &R,
    alloc: Global,
    system: System,
    script: Script,
    disc: D,
    workers: u8,
    events: u32,
    sink: &mut K,
    gate: &G,
) -> Ran<D>
    requires valid { IsValid system }
    requires deck { IsBehaviour (behaviour script.lines system) }
    requires lines { All (IsLineThere system) script.lines }
    requires few { length script.lines < 2 ^ 32 - 1 }
    requires disc { IsDiscOf system script.lines (D.told disc) }
    requires workers { (1 ≤ workers) × (workers ≤ 16) }
    requires events { events ≤ most_log_lines }
    ensures runs { RunsWith D.told system script.lines events disc result (record {
      before = K.written sink.old;
      now = K.written sink.new;
      faults = K.faults sink.old;
      faults_then = K.faults sink.new;
    }) }
    ensures sure { IsSure D.told system script.lines events disc result (record {
      before = K.written sink.old;
      now = K.written sink.new;
      faults = K.faults sink.old;
      faults_then = K.faults sink.new;
    }) }
{
    let setup = Setup::new(system, script);
    let bounds = RunBounds { workers, events };
    let over = match run_over(rt, alloc, setup, disc, bounds, gate) {
        Ok(over) => over,
        Err(Memory) => return Ran::of(Status::Memory, None),
    };
    match over {
        RunEnding::Ended(ended, world) => {
            let Ok(text) = report(alloc, &world) else {
                return Ran::of(Status::Memory, None);
            };
            world.holds();
            let status = written(sink, ended.status(), text.as_slice());
            Ran::of(status, Some(world.into_disc()))
        }
        RunEnding::Failed(world) => {
            world.holds();
            Ran::of(Status::DiscFault, Some(world.into_disc()))
        }
    }
}

impl<D: Disc> Ran<D> {
    /// What a call with this status leaves of its disc.
    fn of(status: Status, disc: Option<D>) -> Ran<D>
        ensures status { result.status ≡ status_number status }
        ensures disc { result.disc ≡ disc }
    {
        Ran {
            status: status.number(),
            disc,
        }
    }
}
