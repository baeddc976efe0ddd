ghost use Rattle.std.specs.Prelude.{◌≡◌, ◌+◌, ◌<◌, ◌≤◌, length, IsTrue, if◌then◌else◌};
ghost use Rattle.pw_picture.specs.Grammar.{IsPicture, size_of};
ghost use Rattle.pw_code.specs.Fields.{IsFieldItem, IsField, IsTable, is_source_of};
ghost use Rattle.pw_code.specs.declared.field.FieldKind.TheVariants.{Item};
ghost use Rattle.pw_terminal.specs.Screen.{blank_cells};
ghost use Rattle.pw_terminal.specs.Shown.{cell_place, written, as_shown, field_text, with_field, with_screen};

use crate::images::put;
use pw_code::field::{Field, FieldKind, ScreenTable};
use pw_code::screen::{CELLS, COLUMNS, ScreenImage};
use pw_picture::picture::Picture;
use pw_picture::text::move_text;

/// Puts the fields of a screen, where `base` is set after the screen was cleared and with the
/// literals. `storage` holds the items. It takes no memory, and costs what the fields have as cells.
pub fn show(table: &ScreenTable, storage: &[u8], base: bool, image: &mut ScreenImage)
    requires { IsTable (length storage.now) table.now }
    ensures { image.new ≡ with_screen base storage.now table.now image.old }
{
    clear(base, image);
    let mut row = [b' '; COLUMNS];
    for field in table.fields.as_slice() {
        put_field(field, storage, base, &mut row, image);
    }
}

/// Clears all rows where `base` is set.
fn clear(base: bool, image: &mut ScreenImage)
    ensures { image.new ≡ (if base then blank_cells else image.old) }
{
    if base {
        put(&[b' '; CELLS], 0, image);
    }
}

/// Where a cell lies among those of the screen.
fn place_of(row: u8, column: u8) -> usize
    ensures { result ≡ cell_place row column }
{
    row.saturating_sub(1) as usize * COLUMNS + column.saturating_sub(1) as usize
}

/// Puts a field. `row` is a row of 80 cells that is written over.
fn put_field(field: &Field, storage: &[u8], base: bool, row: &mut [u8], image: &mut ScreenImage)
    requires field { IsField (length storage.now) field.now }
    requires row { length row.old ≡ 80 }
    ensures { image.new ≡ with_field base storage.now field.now image.old }
{
    let place = place_of(field.row, field.column);
    match &field.shown {
        FieldKind::Literal(text) => put_literal(text.as_slice(), base, place, image),
        FieldKind::Item {
            picture,
            at,
            source,
            show,
        } => {
            let text = &mut row[..picture.length()];
            write_item(picture, *at, source, *show, storage, text);
            put(text, place, image);
        }
    }
}

/// Puts a literal, where it is put.
fn put_literal(text: &[u8], base: bool, place: usize, image: &mut ScreenImage)
    requires { 0 < length text.now → place + length text.now ≤ 1920 }
    ensures { image.new ≡ (if base then written place text.now image.old else image.old) }
{
    if base && !text.is_empty() {
        put(text, place, image);
    }
}

/// Writes what the field of an item shows: the item, or spaces.
pub(crate) fn write_item(
    picture: &Picture,
    at: u32,
    source: &Picture,
    show: bool,
    storage: &[u8],
    into: &mut [u8],
)
    requires item { IsFieldItem (length storage.now) picture.now at source.now }
    requires size { length into.old ≡ size_of picture.now }
    ensures { into.new ≡ field_text storage.now (Item picture.now at source.now show) }
{
    if show {
        let (_, behind) = storage.split_at(at as usize);
        let (chars, _) = behind.split_at(source.length());
        write_shown(picture, source, chars, into);
    } else {
        into.fill(b' ');
    }
}

/// Writes an item's characters as a field's picture shows them.
fn write_shown(picture: &Picture, source: &Picture, chars: &[u8], into: &mut [u8])
    requires picture { IsPicture picture.now }
    requires source { IsPicture source.now }
    requires kinds { IsTrue (is_source_of picture.now source.now) }
    requires chars { length chars.now ≡ size_of source.now }
    requires size { length into.old ≡ size_of picture.now }
    ensures { into.new ≡ as_shown picture.now source.now chars.now }
{
    match picture {
        Picture::Text { .. } => move_text(chars, into),
        Picture::Number { .. } => picture.move_to(source.read_number(chars), into),
        Picture::Edited { .. } => picture.edit(source.read_number(chars), into),
    }
}
