ghost use Rattle.std.specs.Prelude.{◌≡◌, ◌≤◌, ◌+◌, ◌*◌, ◌||◌, min, false, length, take_while};
ghost use Rattle.pw_base.specs.Limits.{most_storage};
ghost use Rattle.pw_data.specs.Entries.{has_occurs};
ghost use Rattle.pw_base.specs.First.{least};
ghost use Rattle.pw_data.specs.Tree.{same_section, stands_in, forest, is_top, in_table, is_misplaced, tree_faults};
ghost use Rattle.pw_data.specs.Laid.{times, size_in, too_large};

use crate::entry::Entry;
use pw_base::fault::{Fault, noted};
use pw_base::fault_code::FaultCode;

/// The most characters of storage of a program.
pub const MAX_STORAGE: u32 = 32_000;

/// The storage has as many characters as the table of limits says.
pub fn storage_limit()
    ensures { MAX_STORAGE ≡ most_storage }
{}

/// A size above the most, as which every larger one counts.
const TOO_LARGE: u32 = MAX_STORAGE + 1;

impl Entry {
    /// Whether the two stand in one section.
    fn is_in_section_of(self, other: Entry) -> bool
        ensures { result ≡ same_section other self }
    {
        self.linked == other.linked
    }

    /// Whether it may belong to another one.
    fn stands_in(self, holder: Entry) -> bool
        ensures { result ≡ stands_in holder self }
    {
        self.level != 77 && (holder.level < self.level && self.is_in_section_of(holder))
    }

    /// How many of the entries behind it belong to it or to its members.
    pub fn member_count(self, behind: &[Entry]) -> usize
        ensures count { result ≡ length (take_while (stands_in self) behind.now) }
        ensures bound { result ≤ length behind.now }
    {
        behind
            .iter()
            .take_while(|entry| entry.stands_in(self))
            .count()
    }

    /// Whether its place is a fault, by what it is within and whether it has members.
    fn is_misplaced(self, within: Within, group: bool) -> bool
        ensures { result ≡ is_misplaced (is_top within) (in_table within) group self }
    {
        let wrong_kind = if group {
            self.has_picture() || self.has_value()
        } else {
            !self.has_picture()
        };
        (within.is_top() && !self.begins_item())
            || (wrong_kind
                || ((within.in_table() && self.has_occurs())
                    || ((within.in_table() || self.has_occurs()) && self.has_value())))
    }

    /// How often it stands: its OCCURS, and at least once.
    pub fn times(self) -> u32
        ensures { result ≡ times self }
    {
        self.occurs.unwrap_or(1).max(1) as u32
    }

    /// The size of all its occurrences, by the size of its members. Every size above the most counts as
    /// one more than it.
    pub fn extent(self, members: u32) -> u32
        requires { members ≤ most_storage + 1 }
        ensures { result ≡ min (times self * (self.size + members)) (most_storage + 1) }
    {
        let one = self.size as u32 + members;
        self.times().saturating_mul(one).min(TOO_LARGE)
    }
}

/// What entries are within.
#[derive(Clone, Copy)]
pub enum Within {
    /// They are at the top, and belong to no other entry.
    Nothing,
    /// They are members of a group, and inside no OCCURS.
    Group,
    /// They are inside an OCCURS.
    Table,
}

impl Within {
    /// Whether they are at the top.
    fn is_top(self) -> bool
        ensures { result ≡ is_top self }
    {
        matches!(self, Within::Nothing)
    }

    /// Whether they are inside an OCCURS.
    fn in_table(self) -> bool
        ensures { result ≡ in_table self }
    {
        matches!(self, Within::Table)
    }

    /// What the members of an entry are within.
    fn members_of(self, entry: Entry) -> Within
        ensures top { is_top result ≡ false }
        ensures table { in_table result ≡ (in_table self || has_occurs entry) }
    {
        if self.in_table() || entry.has_occurs() {
            Within::Table
        } else {
            Within::Group
        }
    }
}

/// The first of the fault that is known and of the entries whose place is a fault, 121 each: it
/// belongs to none and begins no item; it is a group with a picture or a VALUE; it has no picture and
/// no members; it has an OCCURS inside another OCCURS, or a VALUE under OCCURS.
pub fn tree_faults(within: Within, entries: &[Entry], known: Option<Fault>) -> Option<Fault>
    ensures { result ≡ least known (tree_faults (is_top within) (in_table within) (forest entries.now)) }
{
    let mut known = known;
    let mut rest = entries;
    while let Some((entry, behind)) = rest.split_first() {
        let (members, next) = behind.split_at(entry.member_count(behind));
        let misplaced = entry.is_misplaced(within, !members.is_empty());
        known = noted(known, misplaced, entry.fault(FaultCode::BadDataEntry));
        known = tree_faults(within.members_of(*entry), members, known);
        rest = next;
    }
    known
}

/// The size of all that entries hold. Every size above the most counts as one more than it.
pub fn size_of(entries: &[Entry]) -> u32
    ensures size { result ≡ min (size_in (forest entries.now)) (most_storage + 1) }
    ensures bound { result ≤ most_storage + 1 }
{
    let mut size = 0;
    let mut rest = entries;
    while let Some((entry, behind)) = rest.split_first() {
        let (members, next) = behind.split_at(entry.member_count(behind));
        size = (size + entry.extent(size_of(members))).min(TOO_LARGE);
        rest = next;
    }
    size
}

/// The fault 124 of the first entry that begins an item and with which the storage is too large.
pub fn too_large(entries: &[Entry]) -> Option<Fault>
    ensures { result ≡ too_large 0 (forest entries.now) }
{
    let mut size = 0;
    let mut rest = entries;
    while let Some((entry, behind)) = rest.split_first() {
        let (members, next) = behind.split_at(entry.member_count(behind));
        size += entry.extent(size_of(members));
        if size > MAX_STORAGE {
            return Some(entry.fault(FaultCode::StorageTooLarge));
        }
        rest = next;
    }
    None
}
