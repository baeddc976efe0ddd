ghost use Rattle.std.specs.Prelude.{◌≡◌, All, OnOk, length};
ghost use Rattle.pw_blocks.specs.Blocks.{records_of};
ghost use Rattle.pw_tmf.specs.Committed.{FitsFile, all_put_back, images_below, images_of};
ghost use Rattle.pw_tmf.specs.Tmf.{unit_at};

use crate::slot::Slot;
use pw_base::memory::Memory;
use pw_blocks::block_file::BlockFile;

/// Puts back, in a file of this number, what all open units have changed of it.
pub fn put_all_back(file: &mut BlockFile, number: u32, slots: &[Slot]) -> Result<(), Memory>
    requires { All (λ slot. All (FitsFile number file.old.key) (images_of slot.open_unit)) slots.now }
    ensures { OnOk result (records_of file.new.blocks
        ≡ all_put_back file.old.key number (images_below (unit_at slots.now) (length slots.now)) (records_of file.old.blocks)) }
{
    for slot in slots {
        slot.put_back_in(number, file)?;
    }
    Ok(())
}
