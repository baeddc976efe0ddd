ghost use Rattle.std.specs.Prelude.{◌≡◌, ◌+◌, ◌<◌, Some, length, map, slice_get, IfOk, OnOk};
ghost use Rattle.pw_world.specs.States.{seen};
ghost use Rattle.pw_world_model.specs.Seen.{sys_of};
ghost use Rattle.pw_serial_order.specs.Order.{told};
ghost use Rattle.pw_paired.specs.Serial.{blocks};
ghost use Rattle.pw_report.specs.Read.{IsWorldReadTo};

use pw_base::memory::Memory;
use pw_event::event::Event;
use pw_serial_order::block::Block;
use pw_serial_order::laws::orders_are_whole;
use pw_serial_order::order::SerialOrder;
use pw_tmf::disc::Disc;
use pw_world::world::World;
use std::alloc::Global;

/// The entry at a place of a log.
fn entry_at(log: &[Event], place: usize) -> Event
    requires { place < length log.now }
    ensures { slice_get log.now place ≡ Some result }
{
    log[place]
}

/// Reads the entry at a place of a world's log, and puts its blocks behind others.
fn read<D: Disc>(
    world: &World<D>,
    place: usize,
    reading: &mut SerialOrder,
    order: &mut Vec<Block>,
) -> Result<(), Memory>
    requires place { place < length (seen D.told world.now).log }
    requires read { IsWorldReadTo D.told world.now place reading.old order.old.items }
    ensures { OnOk result (IsWorldReadTo D.told world.now (place + 1) reading.new order.new.items) }
{
    world.holds();
    let entry = entry_at(world.log(), place);
    reading.push(&entry, world.one_send(place), order)
}

/// The blocks of the serial order of a world's log (docs/reference/DECK.md), without their numbers of answers. It
/// reads the log once.
pub fn blocks<D: Disc>(alloc: Global, world: &World<D>) -> Result<Vec<Block>, Memory>
    ensures { IfOk result (λ order. order.items
        ≡ map told (blocks (sys_of (seen D.told world.now)) (seen D.told world.now).log)) }
{
    orders_are_whole();
    let mut order = Vec::new(alloc);
    let mut reading = SerialOrder::new(alloc, world.system())?;
    for place in 0..world.log().len() {
        read(world, place, &mut reading, &mut order)?;
    }
    reading.end(&mut order)?;
    Ok(order)
}
