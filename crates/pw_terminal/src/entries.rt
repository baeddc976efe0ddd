ghost use Rattle.std.specs.Prelude.{◌≡◌, ◌==◌, ◌+◌, ◌<◌, ◌≤◌, ◌&&◌, ◌++◌, length, position, slice_get, is_some, codes, IfSome};
ghost use Rattle.pw_terminal.specs.Screen.{with_message};
ghost use Rattle.pw_terminal.specs.Entries.{is_entry_field, is_value_for, is_right, is_wrong, check, entry_pair_name, with_advice};

use crate::images::message;
use crate::values::is_value_for;
use pw_base::bytes::Bytes;
use pw_code::entry::EntryLine;
use pw_code::field::{Field, ScreenTable};
use pw_code::screen::{COLUMNS, ScreenImage};
use pw_picture::text::move_text;

/// What an entry is for a screen that waits for some keys.
#[derive(Clone, Copy, Debug, PartialEq, Eq)]
pub enum EntryAnswer {
    /// Right, with the first position of its key in the list, from 1.
    Valid(u16),
    /// Its key is not in the list.
    BadKey,
    /// Its pair at this place, from 0, is wrong, and none before it.
    BadField(u16),
}

/// What an entry is for a screen that waits for these keys. It takes no memory.
///
/// The fields are looked up from behind the field of the pair before, so an entry whose pairs stand in
/// the order of the fields costs one walk over both.
pub fn check_entry(table: &ScreenTable, keys: &[u8], entry: &EntryLine) -> EntryAnswer
    requires { length keys.now ≤ 9999 }
    ensures { result ≡ check table.now keys.now entry.now }
{
    let Some(place) = place_of_key(keys, entry.key) else {
        return EntryAnswer::BadKey;
    };
    match first_wrong(table.fields.as_slice(), entry.fields.as_slice()) {
        Some(pair) => EntryAnswer::BadField(pair as u16),
        None => EntryAnswer::Valid(place as u16 + 1),
    }
}

/// The place of a key in a list.
fn place_of_key(keys: &[u8], wanted: u8) -> Option<usize>
    ensures place { result ≡ position (λ key. key == wanted) keys.now }
    ensures bound { IfSome result (λ place. place < length keys.now) }
{
    keys.iter().position(|key| *key == wanted)
}

/// The place of the first pair that is wrong.
fn first_wrong(fields: &[Field], pairs: &[(Bytes, Bytes)]) -> Option<usize>
    ensures place { result ≡ position (is_wrong fields.now) pairs.now }
    ensures bound { IfSome result (λ place. place < length pairs.now) }
{
    let mut start = 0;
    for at in 0..pairs.len() {
        let (name, value) = &pairs[at];
        let Some(field) = field_from(fields, start, name.as_slice(), value.as_slice()) else {
            return Some(at);
        };
        start = field + 1;
    }
    None
}

/// The place of a field that has this name and may be given this value, looked for from `start` on and
/// then before it.
fn field_from(fields: &[Field], start: usize, name: &[u8], value: &[u8]) -> Option<usize>
    requires { start ≤ length fields.now }
    ensures right { is_some result ≡ is_right fields.now (name.now, value.now) }
    ensures bound { IfSome result (λ place. place < length fields.now) }
{
    let (front, behind) = fields.split_at(start);
    match field_in(behind, name, value) {
        Some(place) => Some(start + place),
        None => field_in(front, name, value),
    }
}

/// The place of the first field that has this name and may be given this value.
fn field_in(fields: &[Field], name: &[u8], value: &[u8]) -> Option<usize>
    ensures place { result ≡ position (λ field. is_entry_field name.now field && is_value_for field.shown value.now) fields.now }
    ensures bound { IfSome result (λ place. place < length fields.now) }
{
    fields
        .iter()
        .position(|field| has_value(field, name, value))
}

/// Whether a field has this name and may be given this value.
fn has_value(field: &Field, name: &[u8], value: &[u8]) -> bool
    ensures { result ≡ (is_entry_field name.now field.now && is_value_for field.now.shown value.now) }
{
    is_entry_field(name, field) && is_value_for(&field.shown, value)
}

/// Whether a field takes entries under this name, in either case. FILLER has no name (docs/reference/LANGUAGE.md).
pub fn is_entry_field(name: &[u8], field: &Field) -> bool
    ensures { result ≡ is_entry_field name.now field.now }
{
    field.takes && !name.is_empty() && field.name.as_slice().eq_ignore_ascii_case(name)
}

/// Tells on row 24 what is wrong with an entry. A right one leaves the screen. It takes no memory.
pub fn advise(answer: EntryAnswer, entry: &EntryLine, image: &mut ScreenImage)
    ensures { image.new ≡ with_advice answer entry.now image.old }
{
    match answer {
        EntryAnswer::Valid(_) => {}
        EntryAnswer::BadKey => message(b"INVALID KEY", image),
        EntryAnswer::BadField(place) => advise_field(name_at(entry, place), image),
    }
}

/// The name of the pair at a place, and none past the last.
fn name_at(entry: &EntryLine, place: u16) -> &[u8]
    ensures { result.now ≡ entry_pair_name (slice_get entry.now.fields place) }
{
    match entry.fields.get(place as usize) {
        Some((name, _)) => name.as_slice(),
        None => b"",
    }
}

/// Tells on row 24 which field is wrong.
fn advise_field(name: &[u8], image: &mut ScreenImage)
    ensures { image.new ≡ with_message (codes "INVALID FIELD " ++ name.now) image.old }
{
    let mut row = [b' '; COLUMNS];
    let (front, back) = row.split_at_mut(14);
    front.copy_from_slice(b"INVALID FIELD ");
    move_text(name, back);
    message(&row, image);
}
