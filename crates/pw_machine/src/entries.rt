//! An entry line, put into the program that awaits it.

ghost use Rattle.std.specs.Prelude.{◌≡◌, ◌==◌, ◌<◌, ◌≤◌, ◌+◌, ◌-◌, ◌^◌, ℕ, List, length, find, slice_index_or, filter, drop, take_while, All, if◌then◌else◌};
ghost use Rattle.std.specs.Option.{option_copied};
ghost use Rattle.std.specs.Char.{is_ascii_digit};
ghost use Rattle.pw_picture.specs.Stored.{moved, is_negative};
ghost use Rattle.pw_picture.specs.Grammar.{IsPicture, size_of};
ghost use Rattle.pw_code.specs.Fields.{IsField, IsTable, HasClauses, IsFieldItem};
ghost use Rattle.pw_code.specs.Spelling.{number_in, decimals_in};
ghost use Rattle.pw_code.specs.Instrs.{IsScreen, screen_at};
ghost use Rattle.pw_code.specs.declared.context.Frame.{Frame};
ghost use Rattle.pw_terminal.specs.Entries.{is_entry_field, check};
ghost use Rattle.pw_terminal.specs.Shown.{written};
ghost use Rattle.pw_code_meaning.specs.Answers as answers;
ghost use Rattle.pw_code_meaning.specs.Entries as items;
ghost use Rattle.pw_machine.specs.Config.{config_with};
ghost use Rattle.pw_machine.specs.Stack.{HasRoom};

use crate::keyed::number_keyed;
use crate::moves::text_to;
use crate::spot::MachineSpot;
use crate::top::Top;
use crate::turns::go_over;
use crate::units::answered;
use pw_base::bytes::Bytes;
use pw_code::context::{Context, Course};
use pw_code::entry::EntryLine;
use pw_code::field::{Field, FieldKind, ScreenTable};
use pw_code::place::Kind;
use pw_picture::picture::Picture;
use pw_terminal::entries::{EntryAnswer, advise, check_entry, is_entry_field};

/// The first field that takes entries under this name.
fn field_named<'a>(fields: &'a [Field], name: &[u8]) -> Option<&'a Field>
    ensures { option_copied result ≡ find (is_entry_field name.now) fields.now }
{
    for field in fields {
        if is_entry_field(name, field) {
            return Some(field);
        }
    }
    None
}

/// Moves a value to the item of a field.
fn enter_in(storage: &mut [u8], field: &Field, value: &[u8])
    requires { IsField (length storage.old) field.now }
    ensures { storage.new ≡ items.entered_in field.now.shown value.now storage.old }
{
    let FieldKind::Item { at, source, .. } = &field.shown else {
        return;
    };
    let at = *at as usize;
    match source {
        Picture::Text { size } => {
            let spot = MachineSpot {
                at,
                size: *size as usize,
                kind: Kind::Text,
            };
            text_to(storage, spot, value);
        }
        Picture::Number {
            digits,
            places,
            signed,
        } => number_keyed(storage, at, *digits, *places, *signed, value),
        Picture::Edited { .. } => {}
    }
}

/// Moves the values of an entry line, in the order of its pairs.
fn enter_all(storage: &mut [u8], fields: &[Field], pairs: &[(Bytes, Bytes)])
    requires { All (IsField (length storage.old)) fields.now }
    ensures { storage.new ≡ items.storage_entered fields.now pairs.now storage.old }
{
    for (name, value) in pairs {
        if let Some(field) = field_named(fields, name.as_slice()) {
            enter_in(storage, field, value.as_slice());
        }
    }
}

/// A right entry is moved, and TERMINATION-STATUS is the position of its key. For a wrong one row 24 says so.
pub fn entered(
    table: &ScreenTable,
    keys: &[u8],
    top: &mut Top,
    context: &mut Context,
    line: &EntryLine,
)
    requires table { IsTable (length top.old.storage.items) table.now }
    requires keys { length keys.now ≤ 9999 }
    requires place { top.old.at + 1 < 2 ^ 32 }
    requires room { HasRoom context.old }
    ensures config { (frames : List Frame) → config_with frames top.new context.new
        ≡ answers.entry_checked table.now line.now (check table.now keys.now line.now) (config_with frames top.old context.old) }
    ensures size { length top.new.storage.items ≡ length top.old.storage.items }
    ensures program { top.new.program ≡ top.old.program }
{
    answered(context);
    context.entries += 1;
    match check_entry(table, keys, line) {
        EntryAnswer::Valid(place) => {
            enter_all(
                top.storage.as_mut_slice(),
                table.fields.as_slice(),
                line.fields.as_slice(),
            );
            context.termination = place;
            go_over(top, 0);
        }
        wrong => {
            advise(wrong, line, &mut context.screen);
            context.course = Course::Advisory;
        }
    }
}
