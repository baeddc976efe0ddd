ghost use Rattle.std.specs.Prelude.{◌≡◌, ◌+◌, ◌<◌, ◌≤◌, ◌*◌, ◌^◌, ◌++◌, ◌∷◌, [], length, true, IfOk, IsTrue, OnOk, OnErr, ◌↔◌};
ghost use Rattle.std.specs.Prelude.{if◌then◌else◌};
ghost use Rattle.std.specs.List.{list_all};
ghost use Rattle.pw_image.specs.Records.{numbered_record, differs, record_at, record_count, records_between, changed_between, changed_records, lies_in, with_record, patched};

use crate::changed::{Changed, Changes};
use crate::records::{RECORD, record_at, record_count, records_between};
use pw_base::bytes::Bytes;
use pw_base::memory::Memory;
use std::alloc::Global;

/// How many records are compared at once.
const GROUP: u32 = 4;

/// The records of the new image that differ from those of the old one, which is as long (docs/design/ARCHITECTURE.md). It costs the
/// bytes of one image. An image with more than 2^32 - 1 records is `Memory`.
pub fn changes(alloc: Global, old: &[u8], new: &[u8]) -> Result<Changes, Memory>
    requires { length old.now ≡ length new.now }
    ensures { IfOk result (λ changes. changes ≡ changed_records old.now new.now) }
{
    let Ok(count) = u32::try_from(record_count(new)) else {
        return Err(Memory);
    };
    let mut changed = Vec::new(alloc);
    add_groups(alloc, &mut changed, old, new, count)?;
    Ok(Changes::from_records(changed))
}

/// Puts those of so many records of the new image, from the first on, that differ behind the others, group by group.
fn add_groups(
    alloc: Global,
    changed: &mut Vec<Changed>,
    old: &[u8],
    new: &[u8],
    count: u32,
) -> Result<(), Memory>
    requires length { length old.now ≡ length new.now }
    requires within { count ≤ record_count (length new.now) }
    ensures { OnOk result (changed.new.items ≡ changed.old.items ++ changed_between old.now new.now 0 count) }
{
    let mut from = 0;
    while from < count {
        let group = (count - from).min(GROUP);
        add_between(alloc, changed, old, new, from, group)?;
        from += group;
    }
    Ok(())
}

/// Puts those of so many records of the new image, from a number on, that differ behind the others. Where all are equal in
/// both images none is looked at by itself.
fn add_between(
    alloc: Global,
    changed: &mut Vec<Changed>,
    old: &[u8],
    new: &[u8],
    from: u32,
    count: u32,
) -> Result<(), Memory>
    requires length { length old.now ≡ length new.now }
    requires some { 0 < count }
    requires within { from + count ≤ record_count (length new.now) }
    requires fits { from + count < 2 ^ 32 }
    ensures { OnOk result (changed.new.items ≡ changed.old.items ++ changed_between old.now new.now from count) }
{
    if records_between(old, from, count) == records_between(new, from, count) {
        return Ok(());
    }
    add_each(alloc, changed, old, new, from, count)
}

/// Puts the same records behind the others, and looks at each by itself.
fn add_each(
    alloc: Global,
    changed: &mut Vec<Changed>,
    old: &[u8],
    new: &[u8],
    from: u32,
    count: u32,
) -> Result<(), Memory>
    requires length { length old.now ≡ length new.now }
    requires within { from + count ≤ record_count (length new.now) }
    requires fits { from + count < 2 ^ 32 }
    ensures { OnOk result (changed.new.items ≡ changed.old.items ++ changed_between old.now new.now from count) }
{
    for place in 0..count {
        add_changed(alloc, changed, old, new, from + place)?;
    }
    Ok(())
}

/// Puts a record of the new image behind the others, where it differs from that of the old one. An `Err` leaves the
/// list as it was.
fn add_changed(
    alloc: Global,
    changed: &mut Vec<Changed>,
    old: &[u8],
    new: &[u8],
    number: u32,
) -> Result<(), Memory>
    requires length { length old.now ≡ length new.now }
    requires within { 64 * number < length new.now }
    ensures ok { OnOk result (changed.new.items ≡ changed.old.items
        ++ (if differs old.now (numbered_record new.now number) then numbered_record new.now number ∷ [] else [])) }
    ensures err { OnErr result (changed.new.items ≡ changed.old.items) }
{
    let record = record_at(new, number as usize);
    if record_at(old, number as usize) == record {
        return Ok(());
    }
    let bytes = Bytes::from_slice(alloc, record)?;
    changed.push(Changed { number, bytes })?;
    Ok(())
}

/// The image with each of the records in its place. It costs the bytes of the image.
pub fn patch(alloc: Global, old: &[u8], changes: &Changes) -> Result<Bytes, Memory>
    requires { list_all (lies_in old.now) changes.now ≡ true }
    ensures { IfOk result (λ image. image ≡ patched old.now changes.now) }
{
    let mut image = Bytes::from_slice(alloc, old)?;
    for changed in changes.as_slice() {
        put(&mut image, changed);
    }
    Ok(image)
}

/// Puts a record in its place.
fn put(image: &mut Bytes, changed: &Changed)
    requires { lies_in image.old changed.now ≡ true }
    ensures { image.new ≡ with_record image.old changed.now }
{
    image.overwrite(RECORD * changed.number as usize, changed.bytes.as_slice());
}
