ghost use Rattle.std.specs.Prelude.{◌≡◌, ◌++◌, ◌+◌, ◌≤◌, All, IfOk, OnOk};
ghost use Rattle.pw_base.specs.Limits.{most_storage};
ghost use Rattle.pw_data.specs.Entries.{KeepsPicture};
ghost use Rattle.pw_data.specs.Tree.{forest};
ghost use Rattle.pw_data.specs.Names.{name_of};
ghost use Rattle.pw_data.specs.Laid.{size_in, table_of, item_of, items_in};

use crate::entry::Entry;
use crate::item::{Item, ItemTable};
use crate::names::name_of;
use crate::tree::size_of;
use pw_base::bytes::Bytes;
use pw_base::memory::Memory;
use std::alloc::Global;

/// The table in which an entry stands: that of its own OCCURS, or the one around it.
fn table_of(around: ItemTable, occurs: Option<u16>, size: u32) -> ItemTable
    ensures { result ≡ table_of around occurs size }
{
    match occurs {
        Some(occurs) => ItemTable { occurs, step: size },
        None => around,
    }
}

/// A copy of the name of an entry.
fn copy_name(alloc: Global, text: &[u8], entry: Entry) -> Result<Option<Bytes>, Memory>
    ensures { IfOk result (λ name. name ≡ name_of text.now entry) }
{
    match name_of(text, entry) {
        Some(name) => Ok(Some(Bytes::from_slice(alloc, name)?)),
        None => Ok(None),
    }
}

/// The item of an entry that lies at a place and has a size.
fn item_of(
    alloc: Global,
    text: &[u8],
    at: u32,
    size: u32,
    table: ItemTable,
    entry: Entry,
) -> Result<Item, Memory>
    requires { KeepsPicture text.now entry }
    ensures { IfOk result (λ item. item ≡ item_of text.now at size table entry) }
{
    Ok(Item {
        name: copy_name(alloc, text, entry)?,
        level: entry.level,
        linked: entry.linked,
        kind: entry.kind,
        at,
        size,
        occurs: table.occurs,
        step: table.step,
    })
}

/// Puts the items of entries behind the others, one behind the other in the storage from a place on, in
/// the table around them.
pub fn lay(
    alloc: Global,
    text: &[u8],
    at: u32,
    around: ItemTable,
    entries: &[Entry],
    items: &mut Vec<Item>,
) -> Result<(), Memory>
    requires size { at + size_in (forest entries.now) ≤ most_storage }
    requires kept { All (KeepsPicture text.now) entries.now }
    ensures { OnOk result (items.new.items ≡ items.old.items ++ items_in text.now at around (forest entries.now)) }
{
    let mut at = at;
    let mut rest = entries;
    while let Some((entry, behind)) = rest.split_first() {
        let (members, next) = behind.split_at(entry.member_count(behind));
        let inner = size_of(members);
        let size = entry.size as u32 + inner;
        let table = table_of(around, entry.occurs, size);
        let item = item_of(alloc, text, at, size, table, *entry)?;
        items.push(item)?;
        lay(alloc, text, at, table, members, items)?;
        at += entry.extent(inner);
        rest = next;
    }
    Ok(())
}
