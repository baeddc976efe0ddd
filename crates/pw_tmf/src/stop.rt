ghost use Rattle.std.specs.Prelude.{◌≡◌, ◌<◌, ◌+◌, ◌≤◌, filter, length, not, slice_set, vec_capacity, vec_len};
ghost use Rattle.pw_locks.specs.Conflicts.{is_same_unit};
ghost use Rattle.pw_tmf.specs.Slots.{backed_out_slot};
ghost use Rattle.pw_tmf.specs.Tmf.{slot_at, unit_at, with_images};

use crate::images::Images;
use crate::slot::Slot;
use pw_code::unit::Unit;
use pw_locks::book::LockBook;

/// Ends the attempt of a unit, and where `ends` says so the unit: its locks are released, and its before-images are put
/// behind others. There is room for them, so that it takes no memory.
pub fn stop(
    book: &mut LockBook,
    slots: &mut Vec<Slot>,
    lists: &mut Vec<Images>,
    unit: &Unit,
    ends: bool,
)
    requires terminal { unit.now.terminal < length slots.old.items }
    requires room { vec_len lists.old < vec_capacity lists.old }
    ensures locks { book.new ≡ filter (λ held. not (is_same_unit held.unit unit.now)) book.old }
    ensures slots { slots.new.items ≡ slice_set slots.old.items unit.now.terminal
        (backed_out_slot ends (slot_at slots.old.items unit.now.terminal)) }
    ensures lists { lists.new.items ≡ with_images lists.old.items (unit_at slots.old.items unit.now.terminal) }
    ensures room { vec_len lists.new ≤ vec_len lists.old + 1 }
    ensures capacity { vec_capacity lists.new ≡ vec_capacity lists.old }
{
    book.release(unit);
    let alloc = *slots.allocator();
    if let Some(images) = slots[unit.terminal as usize].back_out(alloc, ends) {
        lists.push_reserved(images);
    }
}
