ghost use Rattle.std.specs.Prelude.{◌≡◌, IfOk};

use crate::images::Images;
use crate::slot::Slot;
use pw_base::memory::Memory;
use pw_blocks::block_file::BlockFile;
use std::alloc::Global;

/// Equal files.
pub fn copy_files(alloc: Global, files: &[BlockFile]) -> Result<Vec<BlockFile>, Memory>
    ensures { IfOk result (λ copies. copies.items ≡ files.now) }
{
    let mut copies = Vec::new(alloc);
    for file in files {
        copies.push(file.copy(alloc)?)?;
    }
    Ok(copies)
}

/// Equal lists of before-images.
pub fn copy_lists(alloc: Global, lists: &[Images]) -> Result<Vec<Images>, Memory>
    ensures { IfOk result (λ copies. copies.items ≡ lists.now) }
{
    let mut copies = Vec::new(alloc);
    for images in lists {
        copies.push(images.copy(alloc)?)?;
    }
    Ok(copies)
}

/// Equal units of each terminal.
pub fn copy_slots(alloc: Global, slots: &[Slot]) -> Result<Vec<Slot>, Memory>
    ensures { IfOk result (λ copies. copies.items ≡ slots.now) }
{
    let mut copies = Vec::new(alloc);
    for slot in slots {
        copies.push(slot.copy(alloc)?)?;
    }
    Ok(copies)
}
