ghost use Rattle.std.specs.Prelude.{◌≡◌, ◌<◌, ◌^◌, ◌++◌, length, All, IfOk, OnOk};
ghost use Rattle.std.specs.Int.{to_be_bytes, w32};
ghost use Rattle.std.specs.List.{flat_map};
ghost use Rattle.pw_image.specs.Values.{AreBytes};
ghost use Rattle.pw_trail.specs.Body.{body_of, change_bytes, kind_byte};
ghost use Rattle.pw_trail.specs.Stored.{staged};
ghost use Rattle.pw_trail.specs.Values.{ChangeHasValues, UnitChangesHaveValues};

use crate::changes::{Change, ChangeKind, UnitChanges};
use pw_base::bytes::Bytes;
use pw_base::memory::Memory;
use std::alloc::Global;

/// The record of a unit, and a zero gate behind it. A record whose length or counts are too large for their four bytes
/// is taken for want of memory.
pub fn stage(alloc: Global, unit: &UnitChanges) -> Result<Vec<u8>, Memory>
    ensures bytes { IfOk result (λ staged_bytes. staged_bytes.items ≡ staged unit.now) }
    ensures size { OnOk result (length (body_of unit.now) < 2 ^ 32) }
    ensures values { OnOk result (UnitChangesHaveValues unit.now) }
{
    let mut made = Bytes::from_slice(alloc, &[0, 0, 0, 0])?;
    put_unit(&mut made, unit)?;
    let Ok(size) = u32::try_from(made.len() - 4) else {
        return Err(Memory);
    };
    made.overwrite(0, &size.to_be_bytes());
    made.push(0)?;
    Ok(made.into_vec())
}

/// Puts the body of a unit's record behind other bytes.
fn put_unit(made: &mut Bytes, unit: &UnitChanges) -> Result<(), Memory>
    ensures bytes { OnOk result (made.new ≡ made.old ++ body_of unit.now) }
    ensures values { OnOk result (UnitChangesHaveValues unit.now) }
{
    made.extend(&unit.terminal.to_be_bytes())?;
    made.extend(&unit.unit.to_be_bytes())?;
    put_count(made, unit.changes.len())?;
    put_changes(made, unit.changes.as_slice())?;
    Ok(())
}

/// Puts a number of things in four bytes behind others.
fn put_count(made: &mut Bytes, count: usize) -> Result<(), Memory>
    ensures bytes { OnOk result (made.new ≡ made.old ++ to_be_bytes w32 count) }
    ensures small { OnOk result (count < 2 ^ 32) }
{
    let Ok(count) = u32::try_from(count) else {
        return Err(Memory);
    };
    made.extend(&count.to_be_bytes())?;
    Ok(())
}

/// Puts changes behind other bytes.
fn put_changes(made: &mut Bytes, changes: &[Change]) -> Result<(), Memory>
    ensures bytes { OnOk result (made.new ≡ made.old ++ flat_map change_bytes changes.now) }
    ensures values { OnOk result (All ChangeHasValues changes.now) }
{
    for change in changes {
        put_change(made, change)?;
    }
    Ok(())
}

/// The byte that stands for a kind.
fn kind_byte(kind: ChangeKind) -> u8
    ensures { result ≡ kind_byte kind }
{
    match kind {
        ChangeKind::Put => 0,
        ChangeKind::Remove => 1,
    }
}

/// Puts a change behind other bytes.
fn put_change(made: &mut Bytes, change: &Change) -> Result<(), Memory>
    ensures bytes { OnOk result (made.new ≡ made.old ++ change_bytes change.now) }
    ensures values { OnOk result (ChangeHasValues change.now) }
{
    made.extend(&change.file.to_be_bytes())?;
    made.push(kind_byte(change.kind))?;
    put_piece(made, change.bytes.as_slice())?;
    Ok(())
}

/// Puts bytes behind their length.
fn put_piece(made: &mut Bytes, piece: &[u8]) -> Result<(), Memory>
    ensures bytes { OnOk result (made.new ≡ made.old ++ (to_be_bytes w32 (length piece.now) ++ piece.now)) }
    ensures small { OnOk result (length piece.now < 2 ^ 32) }
    ensures values { OnOk result (AreBytes piece.now) }
{
    put_count(made, piece.len())?;
    made.extend(piece)?;
    Ok(())
}
