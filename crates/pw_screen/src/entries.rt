ghost use Rattle.std.specs.Prelude.{◌≡◌, ◌||◌, ℕ, length, IfOk, OnOk};
ghost use Rattle.std.specs.List.{list_any};
ghost use Rattle.pw_text.specs.Cursor.{behind};
ghost use Rattle.pw_data.specs.Entries.{is_bad_picture};
ghost use Rattle.pw_data.specs.Names.{has_name};
ghost use Rattle.pw_divisions.specs.Names.{name_of, own_name_of, is_taken, with_name};
ghost use Rattle.pw_screen.specs.Cells.{used_by};
ghost use Rattle.pw_screen.specs.Clauses.{is_screen_end};
ghost use Rattle.pw_screen.specs.Entries.{is_screen_level, begins_screen, has_bad_picture, is_table_name, is_twice, refused_if, screen_by, screen_head_entry, field_of, used_after, IsSoundEntry};
ghost use Rattle.pw_screen.specs.Built.{is_item};
ghost use Rattle.pw_base.specs.declared.fault_code.FaultCode.TheVariants.{BadPicture, NameTwice};

use crate::body::is_screen_end;
use crate::cells::Cells;
use crate::entry::ScreenEntry;
use crate::field::{field_in, form_of};
use pw_base::fault_code::FaultCode;
use pw_base::memory::Memory;
use pw_data::entry::picture_at;
use pw_data::layout::Layout;
use pw_data::words::is_table_word;
use pw_divisions::names::{level_of, name_of, own_name_of, put_name, upper_name};
use pw_text::cursor::Cursor;
use pw_text::token::{Token, TokenKind};
use pw_words::names::Names;
use std::alloc::Global;

/// Whether a level is 01.
fn is_screen_level(level: Option<u8>) -> bool
    ensures { result ≡ is_screen_level level }
{
    level == Some(1)
}

/// Whether an entry begins a screen: one of level 01 does, and every other one is a field's.
pub fn begins_screen(part: &Cursor<'_>) -> bool
    ensures { result ≡ begins_screen part.now }
{
    is_screen_level(level_of(part))
}

/// Whether a token stands for a picture and is none.
fn is_bad_picture(alloc: Global, text: &[u8], token: Token) -> Result<bool, Memory>
    ensures { IfOk result (λ bad. bad ≡ is_bad_picture text.now token) }
{
    if token.kind.is(TokenKind::Picture) {
        Ok(picture_at(alloc, text, Some(token))?.is_none())
    } else {
        Ok(false)
    }
}

/// Whether one of the tokens stands for a picture and is none.
fn has_bad_picture(alloc: Global, part: &Cursor<'_>) -> Result<bool, Memory>
    ensures { IfOk result (λ bad. bad ≡ has_bad_picture part.now) }
{
    for token in part.tokens() {
        if is_bad_picture(alloc, part.text(), *token)? {
            return Ok(true);
        }
    }
    Ok(false)
}

/// Whether the name that a token is, where there is one, is a table word.
fn is_table_name(text: &[u8], name: Option<Token>) -> bool
    ensures { result ≡ is_table_name text.now name }
{
    match name {
        Some(token) => is_table_word(false, token.spelling(text)),
        None => false,
    }
}

/// Whether an item has the name that a token is, where there is one.
fn is_item(layout: &Layout, text: &[u8], name: Option<Token>) -> bool
    ensures { result ≡ is_taken text.now (is_item layout.now) name }
{
    match name {
        Some(token) => layout.place(token.spelling(text)).is_some(),
        None => false,
    }
}

/// The screen that an entry with its name begins, where it has the form of one.
fn screen_by(alloc: Global, part: &Cursor<'_>) -> Result<ScreenEntry, Memory>
    ensures { IfOk result (λ found. found
        ≡ screen_by part.now.text (name_of part.now) (is_screen_end (behind 2 part.now))) }
{
    let mut behind_name = part.fork();
    let _level = behind_name.next();
    let _name = behind_name.next();
    match name_of(part) {
        Some(name) if is_screen_end(&behind_name) => {
            Ok(ScreenEntry::Screen(upper_name(alloc, part.text(), name)?))
        }
        _ => Ok(ScreenEntry::Refused(FaultCode::BadClause)),
    }
}

/// Reads an entry that begins a screen, and puts its name among those of the screens: 111 for a picture
/// that is none, 122 for a name that is a table word or that of an item or an earlier screen, 143 for
/// another form.
pub fn read_screen(
    alloc: Global,
    layout: &Layout,
    part: &Cursor<'_>,
    names: &mut Names,
) -> Result<ScreenEntry, Memory>
    ensures entry { IfOk result (λ found. found
        ≡ screen_head_entry (λ word. has_name names.old word || is_item layout.now word) part.now) }
    ensures names { OnOk result (has_name names.new
        ≡ with_name part.now.text (name_of part.now) (has_name names.old)) }
    ensures sound { (storage : ℕ) → IfOk result (IsSoundEntry storage) }
{
    let text = part.text();
    let name = name_of(part);
    let taken = put_name(alloc, text, name, names)?;
    if has_bad_picture(alloc, part)? {
        return Ok(ScreenEntry::Refused(FaultCode::BadPicture));
    }
    if is_table_name(text, name) || (taken || is_item(layout, text, name)) {
        return Ok(ScreenEntry::Refused(FaultCode::NameTwice));
    }
    screen_by(alloc, part)
}

/// Reads the entry of a field, and puts its name among those of the fields of the screen: 111 for a
/// picture that is none, 122 for a name that is a table word or that of an earlier field, and what
/// `field_in` says.
pub fn read_field(
    alloc: Global,
    layout: &Layout,
    part: &Cursor<'_>,
    begun: bool,
    names: &mut Names,
    used: &mut Option<Cells>,
) -> Result<ScreenEntry, Memory>
    ensures entry { IfOk result (λ found. found
        ≡ field_of layout.now (has_name names.old) (used_by used.old) begun part.now) }
    ensures names { OnOk result (has_name names.new
        ≡ with_name part.now.text (own_name_of part.now) (has_name names.old)) }
    ensures used { IfOk result (λ found.
        (place : ℕ) → used_by used.new place ≡ used_after (used_by used.old) found place) }
    ensures sound { IfOk result (IsSoundEntry (length layout.now.storage)) }
{
    let text = part.text();
    let name = own_name_of(part);
    let taken = put_name(alloc, text, name, names)?;
    if has_bad_picture(alloc, part)? {
        return Ok(ScreenEntry::Refused(FaultCode::BadPicture));
    }
    if is_table_name(text, name) || taken {
        return Ok(ScreenEntry::Refused(FaultCode::NameTwice));
    }
    field_in(alloc, layout, part, begun, form_of(layout, part), used)
}
