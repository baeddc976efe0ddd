//! Why the workers of a run stopped.

ghost use Rattle.std.specs.Prelude.{◌≡◌, ◌≢◌};
ghost use Rattle.pw_world.specs.States.{seen};
ghost use Rattle.pw_world_model.specs.Answers.{HasFailed};
ghost use Rattle.pw_workers.specs.Ends.{EndsSo};
ghost use Rattle.pw_workers.specs.declared.end.RunEnd.TheVariants as ends;

use pw_tmf::disc::Disc;
use pw_world::world::World;

/// Why the workers of a run stopped (docs/design/ARCHITECTURE.md).
#[derive(Clone, Copy, Debug, PartialEq, Eq)]
pub enum RunEnd {
    /// The log is finished.
    Finished,
    /// The log has as many entries as it may, and is not finished.
    Limit,
    /// The disc has failed in a call of the world.
    DiscFault,
    /// Memory ran out.
    Memory,
}

/// How a run ends that goes on no more: as its log says, and else for want of memory.
pub fn end_of<D: Disc>(world: &World<D>) -> RunEnd
    ensures ends { EndsSo result (seen D.told world.now) }
{
    if world.finished() {
        RunEnd::Finished
    } else if world.is_full() {
        RunEnd::Limit
    } else {
        RunEnd::Memory
    }
}

/// How a run ends whose disc has failed: as its log says, and else by that fault.
pub fn end_at_fault<D: Disc>(world: &World<D>) -> RunEnd
    requires failed { HasFailed (seen D.told world.now) }
    ensures ends { EndsSo result (seen D.told world.now) }
{
    match end_of(world) {
        RunEnd::Memory => RunEnd::DiscFault,
        end => end,
    }
}
