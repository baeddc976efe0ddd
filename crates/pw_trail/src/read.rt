ghost use Rattle.std.specs.Prelude.{◌≡◌, ◌↔◌, true, All, IfOk, IsTrue};
ghost use Rattle.std.specs.Int.{w32};
ghost use Rattle.pw_image.specs.Reading.{GivesPart, byte_at, is_truth, many_at, number_at};
ghost use Rattle.pw_trail.specs.Body.{change_at, changes_at, fits, fits_file, kind_byte, any_change_at, piece_at, unit_at, unit_in};

use crate::changes::{Change, ChangeKind, UnitChanges};
use pw_base::bytes::Bytes;
use pw_base::list::List;
use pw_code::file::FileInfo;
use pw_image::fault::BytesFault;
use std::alloc::Global;

/// The most bytes that a record of a file has.
const MAX_CONTENT: usize = 4_000;

/// The number at the front, and the rest.
fn read_number(bytes: &[u8]) -> Result<(u32, &[u8]), BytesFault>
    ensures { GivesPart (λ x. (x.0, x.1.now)) result (number_at w32 bytes.now) }
{
    if bytes.len() < 4 {
        return Err(BytesFault::Bad);
    }
    let (front, rest) = bytes.split_at(4);
    let number = u32::from_be_bytes([front[0], front[1], front[2], front[3]]);
    Ok((number, rest))
}

/// The kind at the front, and the rest.
fn read_kind(bytes: &[u8]) -> Result<(ChangeKind, &[u8]), BytesFault>
    ensures { GivesPart (λ x. (kind_byte x.0, x.1.now)) result (byte_at is_truth bytes.now) }
{
    match bytes {
        [0, rest @ ..] => Ok((ChangeKind::Put, rest)),
        [1, rest @ ..] => Ok((ChangeKind::Remove, rest)),
        _ => Err(BytesFault::Bad),
    }
}

/// The bytes behind the length at the front, and the rest.
#[tactic(auto, unfolding(crate::specs::Body::piece_at))]
fn read_piece(alloc: Global, bytes: &[u8]) -> Result<(Bytes, &[u8]), BytesFault>
    ensures { GivesPart (λ x. (x.0, x.1.now)) result (piece_at bytes.now) }
{
    let (size, rest) = read_number(bytes)?;
    let size = size as usize;
    if rest.len() < size {
        return Err(BytesFault::Bad);
    }
    let (front, rest) = rest.split_at(size);
    let piece = Bytes::from_slice(alloc, front)?;
    Ok((piece, rest))
}

/// The change at the front, of any file, and the rest.
#[tactic(auto, unfolding(crate::specs::Body::any_change_at))]
fn read_any_change(alloc: Global, bytes: &[u8]) -> Result<(Change, &[u8]), BytesFault>
    ensures { GivesPart (λ x. (x.0, x.1.now)) result (any_change_at bytes.now) }
{
    let (file, rest) = read_number(bytes)?;
    let (kind, rest) = read_kind(rest)?;
    let (bytes, rest) = read_piece(alloc, rest)?;
    Ok((Change { file, kind, bytes }, rest))
}

/// Whether bytes are a whole record of a file, or its key.
fn fits_file(file: &FileInfo, kind: ChangeKind, bytes: &[u8]) -> bool
    ensures { result ≡ fits_file (Some file.now) kind bytes.now }
{
    let key = usize::from(file.key);
    match kind {
        ChangeKind::Put => key <= bytes.len() && bytes.len() <= MAX_CONTENT,
        ChangeKind::Remove => bytes.len() == key,
    }
}

/// Whether a change is of one of the files.
fn fits(files: &[FileInfo], change: &Change) -> bool
    ensures { result ≡ fits files.now change.now }
{
    match files.get(change.file as usize) {
        Some(file) => fits_file(file, change.kind, change.bytes.as_slice()),
        None => false,
    }
}

/// Whether each change is of one of the files.
pub fn fit(files: &[FileInfo], changes: &[Change]) -> bool
    ensures { IsTrue result ↔ All (λ change. fits files.now change ≡ true) changes.now }
{
    changes.iter().all(|change| fits(files, change))
}

/// The change of one of the files at the front, and the rest.
#[tactic(auto, unfolding(crate::specs::Body::change_at))]
fn read_change<'a>(
    alloc: Global,
    files: &[FileInfo],
    bytes: &'a [u8],
) -> Result<(Change, &'a [u8]), BytesFault>
    ensures { GivesPart (λ x. (x.0, x.1.now)) result (change_at files.now bytes.now) }
{
    let (change, rest) = read_any_change(alloc, bytes)?;
    if !fits(files, &change) {
        return Err(BytesFault::Bad);
    }
    Ok((change, rest))
}

/// So many changes, and the rest.
fn read_many_changes<'a>(
    alloc: Global,
    files: &[FileInfo],
    count: u32,
    bytes: &'a [u8],
) -> Result<(Vec<Change>, &'a [u8]), BytesFault>
    ensures { GivesPart (λ x. (x.0.items, x.1.now)) result (many_at (change_at files.now) count bytes.now) }
{
    let mut changes = Vec::new(alloc);
    let mut rest = bytes;
    for _ in 0..count {
        let (change, behind) = read_change(alloc, files, rest)?;
        changes.push(change)?;
        rest = behind;
    }
    Ok((changes, rest))
}

/// The changes behind their number, and the rest.
#[tactic(auto, unfolding(crate::specs::Body::changes_at))]
fn read_changes<'a>(
    alloc: Global,
    files: &[FileInfo],
    bytes: &'a [u8],
) -> Result<(List<Change>, &'a [u8]), BytesFault>
    ensures { GivesPart (λ x. (x.0, x.1.now)) result (changes_at files.now bytes.now) }
{
    let (count, rest) = read_number(bytes)?;
    let (changes, rest) = read_many_changes(alloc, files, count, rest)?;
    Ok((List::from_vec(changes), rest))
}

/// The unit at the front, and the rest.
#[tactic(auto, unfolding(crate::specs::Body::unit_at))]
fn read_front<'a>(
    alloc: Global,
    files: &[FileInfo],
    bytes: &'a [u8],
) -> Result<(UnitChanges, &'a [u8]), BytesFault>
    ensures { GivesPart (λ x. (x.0, x.1.now)) result (unit_at files.now bytes.now) }
{
    let (terminal, rest) = read_number(bytes)?;
    let (unit, rest) = read_number(rest)?;
    let (changes, rest) = read_changes(alloc, files, rest)?;
    Ok((
        UnitChanges {
            terminal,
            unit,
            changes,
        },
        rest,
    ))
}

/// The unit that a record's body is of.
#[tactic(auto, unfolding(crate::specs::Body::unit_in))]
fn read_whole(alloc: Global, files: &[FileInfo], body: &[u8]) -> Result<UnitChanges, BytesFault>
    ensures { GivesPart (λ unit. unit) result (unit_in files.now body.now) }
{
    let (unit, rest) = read_front(alloc, files, body)?;
    if !rest.is_empty() {
        return Err(BytesFault::Bad);
    }
    Ok(unit)
}

/// The unit that a record's body is of, each of whose changes is of one of the files. It is `Bad` exactly where the
/// bytes are no such body.
pub fn read_unit(alloc: Global, files: &[FileInfo], body: &[u8]) -> Result<UnitChanges, BytesFault>
    ensures reads { GivesPart (λ unit. unit) result (unit_in files.now body.now) }
    ensures fit { IfOk result (λ unit. All (λ change. fits files.now change ≡ true) unit.changes) }
{
    read_whole(alloc, files, body)
}
