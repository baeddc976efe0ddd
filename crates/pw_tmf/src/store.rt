ghost use Rattle.std.specs.Prelude.{◌≡◌, ◌<◌, true, IfOk, IfSome, OnErr, OnOk, length};
ghost use Rattle.pw_blocks.specs.Blocks.{records_of};
ghost use Rattle.pw_files.specs.Records.{IsContent, with_record};
ghost use Rattle.pw_onecopy.specs.IsBehaviour.{is_written};
ghost use Rattle.pw_onecopy.specs.Operation.{changes_records, records_behind};
ghost use Rattle.pw_onecopy.specs.Update.{upd};
ghost use Rattle.pw_paired.specs.Units.{put_back};
ghost use Rattle.pw_tmf.specs.Committed.{FitsFile, put_back_if};
ghost use Rattle.pw_tmf.specs.Restored.{changed_in};
ghost use Rattle.pw_tmf.specs.Tmf.{IsImage, key_lengths, stored};

use crate::answer::ChangedKey;
use crate::image::Image;
use pw_base::bytes::Bytes;
use pw_base::memory::Memory;
use pw_blocks::block_file::BlockFile;
use pw_code::file::{FileCall, FileOp};
use pw_files::record_file::RecordFile;
use std::alloc::Global;

/// Puts a content in its place, whether there is a record with its key or not.
pub fn put(file: &mut BlockFile, content: &Bytes) -> Result<(), Memory>
    requires { IsContent file.old.key content.now }
    ensures key { file.new.key ≡ file.old.key }
    ensures ok { OnOk result (records_of file.new.blocks
        ≡ with_record file.old.key (records_of file.old.blocks) content.now) }
    ensures err { OnErr result (records_of file.new.blocks ≡ records_of file.old.blocks) }
{
    let alloc = content.allocator();
    if file.replace(content.copy(alloc)?)? {
        return Ok(());
    }
    file.insert(content.copy(alloc)?)?;
    Ok(())
}

/// Puts back what an image has.
fn put_back(file: &mut BlockFile, image: &Image) -> Result<(), Memory>
    requires { IfSome image.now.content (IsContent file.old.key) }
    ensures key { file.new.key ≡ file.old.key }
    ensures ok { OnOk result (records_of file.new.blocks
        ≡ put_back file.old.key (records_of file.old.blocks) image.now.key image.now.content) }
    ensures err { OnErr result (records_of file.new.blocks ≡ records_of file.old.blocks) }
{
    match image.content() {
        Some(content) => put(file, content),
        None => {
            file.remove(image.key())?;
            Ok(())
        }
    }
}

/// Puts back what an image has, where it is of the file of this number.
pub fn put_back_if(file: &mut BlockFile, number: u32, image: &Image) -> Result<(), Memory>
    requires { FitsFile number file.old.key image.now }
    ensures key { file.new.key ≡ file.old.key }
    ensures ok { OnOk result (records_of file.new.blocks
        ≡ put_back_if file.old.key number image.now (records_of file.old.blocks)) }
{
    if image.file() == number {
        put_back(file, image)?;
    }
    Ok(())
}

/// Puts back what an image has in the file that it is of.
pub fn put_back_in(files: &mut Vec<BlockFile>, image: &Image) -> Result<(), Memory>
    requires { IsImage (key_lengths files.old.items) (length files.old.items) image.now }
    ensures keys { key_lengths files.new.items ≡ key_lengths files.old.items }
    ensures count { length files.new.items ≡ length files.old.items }
    ensures ok { OnOk result (stored files.new.items ≡ upd (stored files.old.items) image.now.file
        (put_back (key_lengths files.old.items image.now.file) (stored files.old.items image.now.file)
        image.now.key image.now.content)) }
    ensures err { OnErr result (stored files.new.items ≡ stored files.old.items) }
{
    put_back(&mut files[image.file() as usize], image)?;
    Ok(())
}

/// Does an operation that changes a record.
fn change(file: &mut BlockFile, call: &FileCall) -> Result<(), Memory>
    requires changes_records { changes_records file.old.key (records_of file.old.blocks) call.now ≡ true }
    requires content { is_written call.now.op ≡ true → IsContent file.old.key call.now.content }
    ensures key { file.new.key ≡ file.old.key }
    ensures ok { OnOk result (records_of file.new.blocks
        ≡ records_behind file.old.key (records_of file.old.blocks) call.now) }
    ensures err { OnErr result (records_of file.new.blocks ≡ records_of file.old.blocks) }
{
    let alloc = call.content.allocator();
    match call.op {
        FileOp::Write => {
            file.insert(call.content.copy(alloc)?)?;
        }
        FileOp::Rewrite => {
            file.replace(call.content.copy(alloc)?)?;
        }
        FileOp::Delete => {
            file.remove(call.key.as_slice())?;
        }
        _ => {}
    }
    Ok(())
}

/// Does an operation that changes a record of one of the files.
pub fn change_in(files: &mut Vec<BlockFile>, call: &FileCall) -> Result<(), Memory>
    requires file { call.now.file < length files.old.items }
    requires changes_records { changes_records (key_lengths files.old.items call.now.file)
        (stored files.old.items call.now.file) call.now ≡ true }
    requires content { is_written call.now.op ≡ true
        → IsContent (key_lengths files.old.items call.now.file) call.now.content }
    ensures keys { key_lengths files.new.items ≡ key_lengths files.old.items }
    ensures count { length files.new.items ≡ length files.old.items }
    ensures ok { OnOk result (stored files.new.items ≡ upd (stored files.old.items) call.now.file
        (records_behind (key_lengths files.old.items call.now.file) (stored files.old.items call.now.file) call.now)) }
    ensures err { OnErr result (stored files.new.items ≡ stored files.old.items) }
{
    change(&mut files[call.file as usize], call)?;
    Ok(())
}

/// What is at an image's key in the file that it is of.
pub fn changed(alloc: Global, files: &[BlockFile], image: &Image) -> Result<ChangedKey, Memory>
    requires { image.now.file < length files.now }
    ensures { IfOk result (λ changed. changed ≡ changed_in (key_lengths files.now) (stored files.now) image.now) }
{
    let content = match files[image.file() as usize].find(image.key()) {
        Some(content) => Some(Bytes::from_slice(alloc, content)?),
        None => None,
    };
    Ok(ChangedKey {
        file: image.file(),
        key: Bytes::from_slice(alloc, image.key())?,
        content,
    })
}
