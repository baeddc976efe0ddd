ghost use Rattle.std.specs.Prelude.{◌≡◌, ◌||◌, false, IfOk, OnOk};
ghost use Rattle.pw_words.specs.Words.{Word, same_word};
ghost use Rattle.pw_data.specs.Entries.{data_name_token, proper_name};
ghost use Rattle.pw_data.specs.Names.{has_name};
ghost use Rattle.pw_divisions.specs.Names.{level_of, name_of, own_name_of, upper_name, is_taken, with_name};

use pw_base::bytes::Bytes;
use pw_base::memory::Memory;
use pw_data::names::in_lower_case;
use pw_data::reading::level_in;
use pw_text::cursor::Cursor;
use pw_text::token::{Token, TokenKind};
use pw_words::names::Names;
use std::alloc::Global;

/// The level of an entry, 1 to 49 or 77: its first token, where that is one.
pub fn level_of(entry: &Cursor<'_>) -> Option<u8>
    ensures { result ≡ level_of entry.now }
{
    level_in(entry.text(), entry.peek()?)
}

/// The name that a token is, where it may be one: a word, but not `$RECEIVE`.
fn name_in(text: &[u8], token: Token) -> Option<Token>
    ensures { result ≡ data_name_token false text.now token }
{
    if token.kind.is(TokenKind::Word) && !token.is_the_word(text, b"$RECEIVE") {
        Some(token)
    } else {
        None
    }
}

/// The name of an entry of a requester that has a level: its second token, where that may be one.
pub fn name_of(entry: &Cursor<'_>) -> Option<Token>
    ensures { result ≡ name_of entry.now }
{
    let _level = level_of(entry)?;
    name_in(entry.text(), entry.peek_at(1)?)
}

/// The name of an entry of a requester that has a level, and none for FILLER.
pub fn own_name_of(entry: &Cursor<'_>) -> Option<Token>
    ensures { result ≡ own_name_of entry.now }
{
    let name = name_of(entry)?;
    if name.is_the_word(entry.text(), b"FILLER") {
        None
    } else {
        Some(name)
    }
}

/// The name that a token is, in upper case.
pub fn upper_name(alloc: Global, text: &[u8], token: Token) -> Result<Bytes, Memory>
    ensures { IfOk result (λ name. name ≡ upper_name text.now token) }
{
    let name = token.spelling(text).to_ascii_uppercase(alloc)?;
    Ok(Bytes::from_vec(name))
}

/// Whether a name is among names in lower case.
pub fn has_name(alloc: Global, names: &Names, name: &[u8]) -> Result<bool, Memory>
    ensures { IfOk result (λ found. found ≡ has_name names.now name.now) }
{
    let key = in_lower_case(alloc, name)?;
    Ok(names.has(&key))
}

/// Puts a name among names in lower case. It gives whether the name was there.
fn put(alloc: Global, name: &[u8], names: &mut Names) -> Result<bool, Memory>
    ensures taken { IfOk result (λ taken. taken ≡ has_name names.old name.now) }
    ensures names { OnOk result ((word : Word)
        → has_name names.new word ≡ (same_word name.now word || has_name names.old word)) }
{
    let key = in_lower_case(alloc, name)?;
    names.put(key)
}

/// Puts the name that a token is, where there is one, among names in lower case. It gives whether it
/// was there.
pub fn put_name(
    alloc: Global,
    text: &[u8],
    name: Option<Token>,
    names: &mut Names,
) -> Result<bool, Memory>
    ensures taken { IfOk result (λ taken. taken ≡ is_taken text.now (has_name names.old) name) }
    ensures names { OnOk result (has_name names.new
        ≡ with_name text.now name (has_name names.old)) }
{
    match name {
        Some(token) => put(alloc, token.spelling(text), names),
        None => Ok(false),
    }
}
