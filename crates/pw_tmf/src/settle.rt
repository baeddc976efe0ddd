ghost use Rattle.std.specs.Prelude.{◌≡◌, ◌↔◌, [], IsTrue, OnErr, OnOk, All, length, reverse};
ghost use Rattle.pw_blocks.specs.Blocks.{records_of};
ghost use Rattle.pw_paired.specs.Units.{restored_files};
ghost use Rattle.pw_tmf.specs.Tmf.{AreImages, all_pending, files_of, key_lengths, stored};

use crate::images::Images;
use crate::store::put_back_in;
use pw_base::memory::Memory;
use pw_blocks::block_file::BlockFile;

/// Puts back what images have, one after the other, and lets each go. An `Err` leaves those that are still to be put
/// back.
fn drain(files: &mut Vec<BlockFile>, images: &mut Images) -> Result<(), Memory>
    requires { AreImages (key_lengths files.old.items) (length files.old.items) images.old }
    ensures keys { key_lengths files.new.items ≡ key_lengths files.old.items }
    ensures count { length files.new.items ≡ length files.old.items }
    ensures files { restored_files (key_lengths files.old.items) images.new (stored files.new.items)
        ≡ restored_files (key_lengths files.old.items) images.old (stored files.old.items) }
    ensures images { AreImages (key_lengths files.old.items) (length files.old.items) images.new }
    ensures ok { OnOk result (images.new ≡ []) }
{
    while let Some(image) = images.first() {
        put_back_in(files, image)?;
        images.drop_first();
    }
    Ok(())
}

/// Puts back what lists of images have, the last list first. An `Err` leaves those that are still to be put back.
pub fn settle(files: &mut Vec<BlockFile>, pending: &mut Vec<Images>) -> Result<(), Memory>
    requires { All (AreImages (key_lengths files.old.items) (length files.old.items)) pending.old.items }
    ensures keys { key_lengths files.new.items ≡ key_lengths files.old.items }
    ensures count { length files.new.items ≡ length files.old.items }
    ensures files { files_of files.new.items (reverse pending.new.items)
        ≡ files_of files.old.items (reverse pending.old.items) }
    ensures images { All (AreImages (key_lengths files.old.items) (length files.old.items)) pending.new.items }
    ensures ok { OnOk result (pending.new.items ≡ []) }
{
    while let Some(mut images) = pending.pop() {
        if let Err(memory) = drain(files, &mut images) {
            pending.push_reserved(images);
            return Err(memory);
        }
    }
    Ok(())
}

/// Whether nothing is to be put back.
pub fn is_settled(pending: &[Images]) -> bool
    ensures { IsTrue result ↔ (pending.now ≡ []) }
{
    pending.is_empty()
}
