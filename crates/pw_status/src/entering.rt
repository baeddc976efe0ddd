//! An entry is entered, and counted if it is a step.

ghost use Rattle.std.specs.Prelude.{◌≡◌, ◌<◌, length};
ghost use Rattle.pw_code.specs.Limits.{most_log_lines};
ghost use Rattle.pw_world_state.specs.May.{IsThere};
ghost use Rattle.pw_status.specs.Watching.{IsWatch, PushesToWatch, watched};

use crate::meeting::{met_before, met_behind};
use crate::noting::{forget, note, shown_in};
use crate::shown::Numbers;
use crate::tally::Tally;
use crate::watch::WatchFault;
use pw_event::event::Event;
use pw_tmf::tmf::Tmf;
use pw_world::world::World;
use pw_world_model::answers::Entered;

/// Enters an entry that names what is there, and counts it if it is a step. Its refresh number is noted before, which takes
/// memory, and forgotten where the entry is none.
pub(crate) fn enter(
    world: &mut World<Tmf>,
    tally: &mut Tally,
    numbers: &mut Numbers,
    event: &Event,
) -> Result<(), WatchFault>
    requires watch { IsWatch world.old tally.old numbers.old }
    requires room { length world.old.ledger.log < most_log_lines }
    requires there { IsThere world.old.keep.system event.now }
    ensures watch { IsWatch world.new tally.new numbers.new }
    ensures pushes { PushesToWatch (watched world.old) event.now result (watched world.new) }
{
    world.holds();
    let shown = shown_in(event);
    let before = met_before(world, event);
    let fresh = note(numbers, shown)?;
    match world.enter(event) {
        Entered::Done => {
            tally.note(event, &met_behind(world, event, before));
            Ok(())
        }
        Entered::NotAStep => {
            forget(numbers, shown, fresh);
            Err(WatchFault::NotAStep)
        }
        Entered::Memory => {
            forget(numbers, shown, fresh);
            Err(WatchFault::Memory)
        }
        Entered::DiscFault => unreachable!(),
    }
}
