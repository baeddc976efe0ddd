ghost use Rattle.std.specs.Prelude.{◌≡◌, ◌+◌, ◌<◌, ◌≤◌, ◌&&◌, ◌||◌, ℕ, length, not, false, IfOk, IfSome};
ghost use Rattle.std.specs.List.{list_any};
ghost use Rattle.pw_code.specs.Fields.{cells_of, IsField};
ghost use Rattle.pw_divisions.specs.Names.{own_name_of};
ghost use Rattle.pw_screen.specs.Shown.{extent_of, is_outside, shown_of, IsShown};
ghost use Rattle.pw_screen.specs.Cells.{first_cell, places_from, is_place_within, is_marked, used_by};
ghost use Rattle.pw_screen.specs.Entries.{is_field_level, where_cells, field_name, field_with, field_on, field_by, form_of, may_stand, field_in, used_after, IsSoundEntry};

use crate::body::{At, FieldBody, body_of};
use crate::cells::Cells;
use crate::entry::ScreenEntry;
use crate::shown::{Shown, extent_of, literal_at, shown_of};
use pw_base::bytes::Bytes;
use pw_base::fault_code::FaultCode;
use pw_base::memory::Memory;
use pw_code::field::Field;
use pw_data::entry::picture_at;
use pw_data::layout::Layout;
use pw_divisions::names::{level_of, name_of, own_name_of, upper_name};
use pw_text::cursor::Cursor;
use std::alloc::Global;

/// Whether a level is a field's, 02 to 49.
fn is_field_level(level: Option<u8>) -> bool
    ensures { result ≡ is_field_level level }
{
    match level {
        Some(level) => 2 <= level && level <= 49,
        None => false,
    }
}

/// Whether a field may stand here: a screen has begun, and the level is a field's.
fn may_stand(begun: bool, part: &Cursor<'_>) -> bool
    ensures { result ≡ may_stand begun part.now }
{
    begun && is_field_level(level_of(part))
}

/// The name of a field in upper case, and no byte for FILLER.
fn field_name(alloc: Global, part: &Cursor<'_>) -> Result<Bytes, Memory>
    ensures { IfOk result (λ name. name ≡ field_name part.now.text (own_name_of part.now)) }
{
    match own_name_of(part) {
        Some(name) => upper_name(alloc, part.text(), name),
        None => Ok(Bytes::new(alloc)),
    }
}

/// A row or a column of a field with cells, and 0 of one without.
fn where_cells(cells: usize, number: u16) -> u8
    requires { 0 < cells → number < 256 }
    ensures { result ≡ where_cells cells number }
{
    if cells > 0 { number as u8 } else { 0 }
}

/// The field of a name and a place. One without cells lies nowhere, in row and column 0.
fn field_with(name: Bytes, at: At, cells: usize, shown: Shown) -> Field
    requires inside { is_outside at cells ≡ false }
    requires cells { cells_of shown.kind ≡ cells }
    ensures field { result ≡ field_with name at cells shown }
    ensures within { first_cell result + cells ≤ 1840 }
    ensures sound { (storage : ℕ) → IsShown storage cells shown → IsField storage result }
{
    let Shown { kind, takes } = shown;
    Field {
        name,
        row: where_cells(cells, at.row),
        column: where_cells(cells, at.column),
        shown: kind,
        takes,
    }
}

/// The place of a field's first cell among the cells of the screen, row by row.
fn first_cell(field: &Field) -> usize
    ensures { result ≡ first_cell field.now }
{
    (field.row as usize).saturating_sub(1) * 80 + (field.column as usize).saturating_sub(1)
}

/// The map of the cells that are used, which is made where there is none yet.
fn map_of(alloc: Global, used: Option<Cells>) -> Result<Cells, Memory>
    ensures { IfOk result (λ map. (place : ℕ) → is_marked map place ≡ used_by used place) }
{
    match used {
        Some(map) => Ok(map),
        None => Cells::new(alloc),
    }
}

/// Marks so many cells from a place on, unless one of them is marked. It gives whether one is.
fn mark_free(map: &mut Cells, from: usize, count: usize) -> bool
    requires { from + count ≤ 1840 }
    ensures taken { result ≡ list_any (is_marked map.old) (places_from from count) }
    ensures marks { (place : ℕ) → is_marked map.new place
        ≡ ((not result && is_place_within from count place) || is_marked map.old place) }
{
    let taken = map.has_mark(from, count);
    if !taken {
        map.mark(from, count);
    }
    taken
}

/// The field, or its refusal where a cell of it is used. Else its cells are used now.
fn field_on(
    alloc: Global,
    field: Field,
    cells: usize,
    used: &mut Option<Cells>,
) -> Result<ScreenEntry, Memory>
    requires cells { cells_of field.shown ≡ cells }
    requires within { first_cell field + cells ≤ 1840 }
    ensures entry { IfOk result (λ found. found ≡ field_on (used_by used.old) field) }
    ensures used { IfOk result (λ found.
        (place : ℕ) → used_by used.new place ≡ used_after (used_by used.old) found place) }
    ensures sound { (storage : ℕ) → IsField storage field → IfOk result (IsSoundEntry storage) }
{
    let mut map = map_of(alloc, used.take())?;
    let taken = mark_free(&mut map, first_cell(&field), cells);
    *used = Some(map);
    if taken {
        Ok(ScreenEntry::Refused(FaultCode::FieldsOverlap))
    } else {
        Ok(ScreenEntry::Field(field))
    }
}

/// What an entry with the form of a field is whose cells lie inside.
fn field_by(
    alloc: Global,
    part: &Cursor<'_>,
    may_stand: bool,
    at: At,
    cells: usize,
    shown: Option<Shown>,
    used: &mut Option<Cells>,
) -> Result<ScreenEntry, Memory>
    requires inside { is_outside at cells ≡ false }
    requires cells { IfSome shown (λ s. cells_of s.kind ≡ cells) }
    ensures entry { IfOk result (λ found. found
        ≡ field_by (used_by used.old) may_stand
        (field_name part.now.text (own_name_of part.now)) at cells shown) }
    ensures used { IfOk result (λ found.
        (place : ℕ) → used_by used.new place ≡ used_after (used_by used.old) found place) }
    ensures sound { (storage : ℕ)
        → IfSome shown (IsShown storage cells) → IfOk result (IsSoundEntry storage) }
{
    let Some(shown) = shown else {
        return Ok(ScreenEntry::Refused(FaultCode::BadClause));
    };
    if !may_stand {
        return Ok(ScreenEntry::Refused(FaultCode::BadClause));
    }
    let field = field_with(field_name(alloc, part)?, at, cells, shown);
    field_on(alloc, field, cells, used)
}

/// What an entry has that has the form of a field: a level, a name or FILLER, AT row, column and clauses.
pub fn form_of(layout: &Layout, part: &Cursor<'_>) -> Option<FieldBody>
    ensures { result ≡ form_of layout.now part.now }
{
    let mut behind_name = part.fork();
    let _level = behind_name.next();
    let _name = behind_name.next();
    if name_of(part).is_some() {
        body_of(layout, &behind_name)
    } else {
        None
    }
}

/// What an entry is that has the form of a field, or has not: 143 where it has another form, 123 for an
/// item that there is not, 141 for a cell outside, 143 for clauses that do not go together and for a
/// field that may not stand here, 142 for a cell that is used.
pub fn field_in(
    alloc: Global,
    layout: &Layout,
    part: &Cursor<'_>,
    begun: bool,
    body: Option<FieldBody>,
    used: &mut Option<Cells>,
) -> Result<ScreenEntry, Memory>
    ensures entry { IfOk result (λ found.
        found ≡ field_in layout.now (used_by used.old) begun part.now body) }
    ensures used { IfOk result (λ found.
        (place : ℕ) → used_by used.new place ≡ used_after (used_by used.old) found place) }
    ensures sound { IfOk result (IsSoundEntry (length layout.now.storage)) }
{
    let Some(FieldBody { at, clauses }) = body else {
        return Ok(ScreenEntry::Refused(FaultCode::BadClause));
    };
    if clauses.unknown {
        return Ok(ScreenEntry::Refused(FaultCode::UnknownItem));
    }
    let text = part.text();
    let picture = picture_at(alloc, text, clauses.picture)?;
    let literal = literal_at(alloc, text, clauses.value)?;
    let cells = extent_of(clauses, text, &picture, &literal);
    if at.is_outside(cells) {
        return Ok(ScreenEntry::Refused(FaultCode::FieldOutside));
    }
    let shown = shown_of(layout, text, clauses, picture, literal);
    field_by(alloc, part, may_stand(begun, part), at, cells, shown, used)
}
