ghost use Rattle.std.specs.Prelude.{◌≡◌, ◌++◌, All, IfOk, OnOk, IsTrue, option_and_then, option_map};
ghost use Rattle.std.specs.List.{repeat};
ghost use Rattle.std.specs.Option.{ForSome};
ghost use Rattle.pw_picture.specs.Grammar.{IsPicture};
ghost use Rattle.pw_picture.specs.Stored.{is_numeric_picture, moved};
ghost use Rattle.pw_picture.specs.Text.{fitted};
ghost use Rattle.pw_data.specs.Literals.{literal_of};
ghost use Rattle.pw_data.specs.Tree.{forest};
ghost use Rattle.pw_data.specs.Entries.{IsKind, KeepsPicture, picture_of_kind};
ghost use Rattle.pw_data.specs.Laid.{times, text_in, initial_number, initial_by, initial, chars_in};

use crate::entry::Entry;
use crate::item::ItemKind;
use crate::literal::{Literal, literal_of};
use pw_base::bytes::Bytes;
use pw_base::memory::Memory;
use pw_number::scaled::Scaled;
use pw_picture::picture::Picture;
use pw_picture::text::move_text;
use pw_text::token::Token;
use std::alloc::Global;

/// The literal of a VALUE, where there is one.
fn value_at(alloc: Global, text: &[u8], token: Option<Token>) -> Result<Option<Literal>, Memory>
    ensures { IfOk result (λ value. value ≡ option_and_then (literal_of text.now) token) }
{
    match token {
        Some(token) => literal_of(alloc, text, token),
        None => Ok(None),
    }
}

/// The characters of a VALUE that is a text.
fn text_in(value: &Option<Literal>) -> &[u8]
    ensures { result.now ≡ text_in value.now }
{
    match value {
        Some(Literal::Text(chars)) => chars.as_slice(),
        _ => &[],
    }
}

/// The number of a VALUE that is one, and else zero.
fn number_in(value: &Option<Literal>) -> Scaled
    ensures { result ≡ initial_number value.now }
{
    match value {
        Some(Literal::Number(number)) => *number,
        _ => Scaled::new(0, 0).unwrap(),
    }
}

/// A text in a field of a size.
fn text_chars(alloc: Global, size: u16, from: &[u8]) -> Result<Bytes, Memory>
    ensures { IfOk result (λ chars. chars ≡ fitted size from.now) }
{
    let mut chars = Vec::from_elem(alloc, b' ', size as usize)?;
    move_text(from, &mut chars);
    Ok(Bytes::from_vec(chars))
}

/// The characters of an item to which a number is moved.
fn number_chars(alloc: Global, picture: &Picture, number: Scaled) -> Result<Bytes, Memory>
    requires picture { IsPicture picture.now }
    requires number { IsTrue (is_numeric_picture picture.now) }
    ensures { IfOk result (λ chars. chars ≡ moved picture.now number) }
{
    let mut chars = Vec::from_elem(alloc, b'0', picture.size() as usize)?;
    picture.move_to(number, &mut chars);
    Ok(Bytes::from_vec(chars))
}

/// The characters with which an item of a kind begins.
fn initial_by(
    alloc: Global,
    value: &Option<Literal>,
    kind: Option<ItemKind>,
) -> Result<Bytes, Memory>
    requires { ForSome kind IsKind }
    ensures { IfOk result (λ chars. chars ≡ initial_by value.now (option_map picture_of_kind kind)) }
{
    match kind {
        Some(ItemKind::Text { size }) => text_chars(alloc, size, text_in(value)),
        Some(kind) => number_chars(alloc, &kind.picture(), number_in(value)),
        None => Ok(Bytes::new(alloc)),
    }
}

/// The characters with which an entry's item begins, none for a group: its VALUE as MOVE puts it, and
/// without one spaces or zero.
fn initial(alloc: Global, text: &[u8], entry: Entry) -> Result<Bytes, Memory>
    requires { KeepsPicture text.now entry }
    ensures { IfOk result (λ chars. chars ≡ initial text.now entry) }
{
    let value = value_at(alloc, text, entry.clauses.value)?;
    Ok(initial_by(alloc, &value, entry.kind)?)
}

/// Puts a piece behind the characters, so many times.
fn repeat(chars: &mut Bytes, piece: &[u8], count: u32) -> Result<(), Memory>
    ensures { OnOk result (chars.new ≡ chars.old ++ repeat count piece.now) }
{
    for _ in 0..count {
        chars.extend(piece)?;
    }
    Ok(())
}

/// The characters with which the items of entries begin, one behind the other.
pub fn chars_of(alloc: Global, text: &[u8], entries: &[Entry]) -> Result<Bytes, Memory>
    requires { All (KeepsPicture text.now) entries.now }
    ensures { IfOk result (λ chars. chars ≡ chars_in text.now (forest entries.now)) }
{
    let mut chars = Bytes::new(alloc);
    let mut rest = entries;
    while let Some((entry, behind)) = rest.split_first() {
        let (members, next) = behind.split_at(entry.member_count(behind));
        let mut piece = initial(alloc, text, *entry)?;
        piece.extend(chars_of(alloc, text, members)?.as_slice())?;
        repeat(&mut chars, piece.as_slice(), entry.times())?;
        rest = next;
    }
    Ok(chars)
}
