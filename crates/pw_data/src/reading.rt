ghost use Rattle.std.specs.Prelude.{◌≡◌, option_and_then, slice_get};
ghost use Rattle.pw_data.specs.Entries.{level_of, level_in, is_data_name_token, data_name_token, reading_of, has_form};

use crate::clauses::{DataClauses, clauses_in};
use crate::literal::whole_number;
use pw_text::cursor::Cursor;
use pw_text::token::{Token, TokenKind};

/// The parts of an entry, each where it has its form: the level, the name, and the clauses.
#[derive(Clone, Copy)]
pub struct EntryParts {
    pub level: Option<u8>,
    pub name: Option<Token>,
    pub clauses: Option<DataClauses>,
}

/// The level that a number is.
fn level_of(number: u16) -> Option<u8>
    ensures { result ≡ level_of number }
{
    if number >= 1 && number <= 49 || number == 77 {
        Some(number as u8)
    } else {
        None
    }
}

/// The level that a token is: 1 to 49 or 77, and None for a token that is no level (docs/reference/LANGUAGE.md).
pub fn level_in(text: &[u8], token: Token) -> Option<u8>
    ensures { result ≡ level_in text.now token }
{
    if token.kind.is(TokenKind::Number) {
        level_of(whole_number(token.spelling(text))?)
    } else {
        None
    }
}

/// Whether a token may be a name.
fn is_name(server: bool, text: &[u8], token: Token) -> bool
    ensures { result ≡ is_data_name_token server text.now token }
{
    token.kind.is(TokenKind::Word) && (server || !token.is_the_word(text, b"$RECEIVE"))
}

/// The first token as a level.
fn level_at(entry: &Cursor<'_>) -> Option<u8>
    ensures { result ≡ option_and_then (level_in entry.now.text) (slice_get entry.now.tokens 0) }
{
    level_in(entry.text(), entry.peek()?)
}

/// The second token, where it may be a name.
fn name_at(server: bool, entry: &Cursor<'_>) -> Option<Token>
    ensures { result ≡ option_and_then (data_name_token server entry.now.text) (slice_get entry.now.tokens 1) }
{
    let token = entry.peek_at(1)?;
    if is_name(server, entry.text(), token) {
        Some(token)
    } else {
        None
    }
}

impl EntryParts {
    /// The parts of an entry.
    pub fn new(server: bool, entry: &Cursor<'_>) -> EntryParts
        ensures { result ≡ reading_of server entry.now }
    {
        let mut behind_name = entry.fork();
        let _level = behind_name.next();
        let _name = behind_name.next();
        EntryParts {
            level: level_at(entry),
            name: name_at(server, entry),
            clauses: clauses_in(&behind_name),
        }
    }

    /// Whether an entry is a level, a name and clauses up to its period.
    pub fn has_form(self) -> bool
        ensures { result ≡ has_form self }
    {
        self.level.is_some() && (self.name.is_some() && self.clauses.is_some())
    }
}
