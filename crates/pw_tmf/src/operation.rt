ghost use Rattle.std.specs.Prelude.{◌≡◌, ◌<◌, None, true, false, IfOk, OnErr, OnOk, length, if◌then◌else◌};
ghost use Rattle.std.specs.Option.{option_copied};
ghost use Rattle.pw_blocks.specs.Blocks.{records_of};
ghost use Rattle.pw_files.specs.Records.{IsContent, IsFile, record_after, record_at};
ghost use Rattle.pw_onecopy.specs.IsBehaviour.{is_written};
ghost use Rattle.pw_onecopy.specs.Operation.{answer_of, changes_records, found_key, is_change, key_of, records_behind, read_answer, span_of};
ghost use Rattle.pw_onecopy.specs.Update.{upd};
ghost use Rattle.pw_paired.specs.Units.{has_image, image_before, is_first_change};
ghost use Rattle.pw_tmf.specs.Operation.{answer_with, refusal, status_with, with_image};
ghost use Rattle.pw_tmf.specs.Slots.{with_before, with_unit};
ghost use Rattle.pw_tmf.specs.Tmf.{key_lengths, stored};

use crate::image::Image;
use crate::slot::Slot;
use crate::store::change_in;
use pw_base::bytes::Bytes;
use pw_base::memory::Memory;
use pw_blocks::block_file::BlockFile;
use pw_code::file::{FileCall, FileOp};
use pw_files::record_file::RecordFile;
use pw_locks::span::Span;
use std::alloc::Global;

/// The status of a WRITE whose key is there.
const DUPLICATE: u16 = 10;

/// The status of an operation whose key is missing.
const MISSING: u16 = 11;

/// The status of a READ NEXT above whose key there is no record.
const END_OF_FILE: u16 = 1;

/// The key that an operation speaks of: that of its record, or its own.
pub fn key_of<'a>(key_length: usize, call: &'a FileCall) -> &'a [u8]
    ensures { result.now ≡ key_of key_length call.now.op call.now }
{
    match call.op {
        FileOp::Write | FileOp::Rewrite => {
            let content = call.content.as_slice();
            &content[..key_length.min(content.len())]
        }
        _ => call.key.as_slice(),
    }
}

/// What an operation locks of its file.
pub fn span_of(alloc: Global, file: &BlockFile, call: &FileCall) -> Result<Span, Memory>
    ensures span { IfOk result (λ span. span ≡ span_of file.now.key (records_of file.now.blocks) call.now.op call.now) }
    ensures file { IsFile file.now.key (records_of file.now.blocks) }
{
    let key_length = file.key_length();
    match call.op {
        FileOp::Next | FileOp::NextLock => Ok(Span::After {
            low: call.key.copy(alloc)?,
            high: found_key(alloc, file, call)?,
        }),
        _ => Ok(Span::Point(Bytes::from_slice(alloc, key_of(key_length, call))?)),
    }
}

/// The key of the record that a READ NEXT finds, None exactly where it finds none.
fn found_key(alloc: Global, file: &BlockFile, call: &FileCall) -> Result<Option<Bytes>, Memory>
    ensures { IfOk result (λ key. key ≡ found_key file.now.key
        (record_after file.now.key (records_of file.now.blocks) call.now.key)) }
{
    match file.next(call.key.as_slice()) {
        Some(content) => Ok(Some(Bytes::from_slice(
            alloc,
            &content[..file.key_length().min(content.len())],
        )?)),
        None => Ok(None),
    }
}

/// A copy of bytes, if there are any.
pub fn copied(alloc: Global, found: Option<&[u8]>) -> Result<Option<Bytes>, Memory>
    ensures { IfOk result (λ copy. copy ≡ option_copied found.entry) }
{
    match found {
        Some(content) => Ok(Some(Bytes::from_slice(alloc, content)?)),
        None => Ok(None),
    }
}

/// The status of a read, by whether it found a record: 0, or the one for a missing record.
fn read_status(is_found: bool, missing: u16) -> u16
    ensures { result ≡ (if is_found then 0 else missing) }
{
    if is_found { 0 } else { missing }
}

/// What a read answers that found this record, if any: status 0, or the one for a missing record.
fn read(alloc: Global, found: Option<&[u8]>, missing: u16) -> Result<(u16, Option<Bytes>), Memory>
    ensures { IfOk result (λ answer. answer_with answer.0 answer.1 ≡ read_answer missing (option_copied found.entry)) }
{
    let status = read_status(found.is_some(), missing);
    Ok((status, copied(alloc, found)?))
}

/// Why a WRITE, REWRITE or DELETE is refused, by whether there is a record with its key.
fn refusal(op: FileOp, is_there: bool) -> Option<u16>
    ensures { result ≡ refusal op is_there }
{
    match (op, is_there) {
        (FileOp::Write, true) => Some(DUPLICATE),
        (FileOp::Rewrite | FileOp::Delete, false) => Some(MISSING),
        _ => None,
    }
}

/// The status of a WRITE, REWRITE or DELETE, by whether there is a record with its key.
fn change_status(op: FileOp, is_there: bool) -> u16
    ensures { result ≡ status_with (refusal op is_there) }
{
    refusal(op, is_there).unwrap_or(0)
}

/// The status that an operation would answer. It takes no memory.
pub fn status_of(file: &BlockFile, call: &FileCall) -> u16
    ensures { result ≡ (answer_of file.now.key (records_of file.now.blocks) call.now.op call.now).status }
{
    match call.op {
        FileOp::Read | FileOp::ReadLock => {
            read_status(file.find(call.key.as_slice()).is_some(), MISSING)
        }
        FileOp::Next | FileOp::NextLock => {
            read_status(file.next(call.key.as_slice()).is_some(), END_OF_FILE)
        }
        FileOp::Write | FileOp::Rewrite | FileOp::Delete => {
            let found = file.find(key_of(file.key_length(), call));
            change_status(call.op, found.is_some())
        }
    }
}

/// Does an operation that changes a record, and puts its before-image to those of the unit. An `Err` leaves all as it
/// was.
fn change_first(
    files: &mut Vec<BlockFile>,
    slot: &mut Slot,
    image: Image,
    call: &FileCall,
) -> Result<(), Memory>
    requires file { call.now.file < length files.old.items }
    requires changes_records { changes_records (key_lengths files.old.items call.now.file)
        (stored files.old.items call.now.file) call.now ≡ true }
    requires content { is_written call.now.op ≡ true
        → IsContent (key_lengths files.old.items call.now.file) call.now.content }
    ensures keys { key_lengths files.new.items ≡ key_lengths files.old.items }
    ensures count { length files.new.items ≡ length files.old.items }
    ensures ok { OnOk result (stored files.new.items ≡ upd (stored files.old.items) call.now.file
        (records_behind (key_lengths files.old.items call.now.file) (stored files.old.items call.now.file) call.now)) }
    ensures noted { OnOk result (slot.new ≡ with_unit (with_before image) slot.old) }
    ensures err { OnErr result (stored files.new.items ≡ stored files.old.items) }
    ensures forgotten { OnErr result (slot.new ≡ slot.old) }
{
    slot.note(image)?;
    match change_in(files, call) {
        Ok(()) => Ok(()),
        Err(memory) => {
            slot.forget();
            Err(memory)
        }
    }
}

/// Does a WRITE, REWRITE or DELETE.
fn write(
    alloc: Global,
    files: &mut Vec<BlockFile>,
    slot: &mut Slot,
    terminal: u32,
    call: &FileCall,
) -> Result<(u16, Option<Bytes>), Memory>
    requires op { is_change call.now.op ≡ true }
    requires file { call.now.file < length files.old.items }
    requires content { is_written call.now.op ≡ true
        → IsContent (key_lengths files.old.items call.now.file) call.now.content }
    ensures keys { key_lengths files.new.items ≡ key_lengths files.old.items }
    ensures count { length files.new.items ≡ length files.old.items }
    ensures answer { IfOk result (λ answer. answer_with answer.0 answer.1
        ≡ answer_of (key_lengths files.old.items call.now.file) (stored files.old.items call.now.file) call.now.op call.now) }
    ensures ok { OnOk result (stored files.new.items ≡ upd (stored files.old.items) call.now.file
        (records_behind (key_lengths files.old.items call.now.file) (stored files.old.items call.now.file) call.now)) }
    ensures noted { OnOk result (slot.new ≡ with_unit (with_image (key_lengths files.old.items call.now.file)
        (stored files.old.items call.now.file) terminal call.now) slot.old) }
    ensures err { OnErr result (stored files.new.items ≡ stored files.old.items) }
    ensures forgotten { OnErr result (slot.new ≡ slot.old) }
{
    let file = &files[call.file as usize];
    let key = key_of(file.key_length(), call);
    let found = file.find(key);
    if let Some(status) = refusal(call.op, found.is_some()) {
        return Ok((status, None));
    }
    let place = (call.file, Bytes::from_slice(alloc, key)?);
    if slot.has_image(terminal, &place) {
        change_in(files, call)?;
    } else {
        let image = Image::new(terminal, place, copied(alloc, found)?);
        change_first(files, slot, image, call)?;
    }
    Ok((0, None))
}

/// Does an operation of a terminal's unit: its file status, and the record that it reads, if any. An `Err` leaves all
/// as it was.
pub fn perform(
    alloc: Global,
    files: &mut Vec<BlockFile>,
    slot: &mut Slot,
    terminal: u32,
    call: &FileCall,
) -> Result<(u16, Option<Bytes>), Memory>
    requires file { call.now.file < length files.old.items }
    requires content { is_written call.now.op ≡ true
        → IsContent (key_lengths files.old.items call.now.file) call.now.content }
    ensures keys { key_lengths files.new.items ≡ key_lengths files.old.items }
    ensures count { length files.new.items ≡ length files.old.items }
    ensures answer { IfOk result (λ answer. answer_with answer.0 answer.1
        ≡ answer_of (key_lengths files.old.items call.now.file) (stored files.old.items call.now.file) call.now.op call.now) }
    ensures ok { OnOk result (stored files.new.items ≡ upd (stored files.old.items) call.now.file
        (records_behind (key_lengths files.old.items call.now.file) (stored files.old.items call.now.file) call.now)) }
    ensures noted { OnOk result (slot.new ≡ with_unit (with_image (key_lengths files.old.items call.now.file)
        (stored files.old.items call.now.file) terminal call.now) slot.old) }
    ensures err { OnErr result (stored files.new.items ≡ stored files.old.items) }
    ensures forgotten { OnErr result (slot.new ≡ slot.old) }
{
    let file = &files[call.file as usize];
    match call.op {
        FileOp::Read | FileOp::ReadLock => read(alloc, file.find(call.key.as_slice()), MISSING),
        FileOp::Next | FileOp::NextLock => read(alloc, file.next(call.key.as_slice()), END_OF_FILE),
        FileOp::Write | FileOp::Rewrite | FileOp::Delete => {
            write(alloc, files, slot, terminal, call)
        }
    }
}
