ghost use Rattle.std.specs.Prelude.{◌≡◌, IfOk};
ghost use Rattle.pw_base.specs.First.{Gives};
ghost use Rattle.pw_divisions.specs.Steps.{FollowsTokenStep};
ghost use Rattle.pw_divisions.specs.Divisions.{identification, front, source, line_at, divisions_of};

use crate::data::{Data, data_division};
use crate::steps::{environment, period, word};
use crate::using::procedure_heading;
use pw_base::fault::{Fault, Refusal};
use pw_base::fault_code::FaultCode;
use pw_base::memory::Memory;
use pw_text::cursor::Cursor;
use pw_text::token::Token;
use std::alloc::Global;
use std::marker::Model;

/// The divisions of a source. Contracts see its parts as lists.
#[derive(Drop)]
pub struct Divisions<'a> {
    /// The tokens of working storage and linkage, with the headings of the two.
    pub stored: &'a [Token],
    /// The entries of SCREEN SECTION.
    pub screens: &'a [Token],
    /// The names of USING.
    pub using_names: &'a [Token],
    /// What stands behind the heading of the procedure division.
    pub procedure: &'a [Token],
}

impl<'a> Model for Divisions<'a> {
    ghost use Rattle.pw_divisions.specs.Divided.{Divided};

    ghost Value = { Divided };

    ghost view = { λ found. record {
      stored = found.stored.now;
      screens = found.screens.now;
      using_names = found.using_names.now;
      procedure = found.procedure.now;
    } };
}

/// Takes the identification division of a program of this name.
fn identification(name: &[u8], cursor: &mut Cursor<'_>) -> Option<()>
    ensures { FollowsTokenStep (identification name.now cursor.old) result cursor.new }
{
    word(cursor, b"IDENTIFICATION")?;
    word(cursor, b"DIVISION")?;
    period(cursor)?;
    word(cursor, b"PROGRAM-ID")?;
    period(cursor)?;
    word(cursor, name)?;
    period(cursor)
}

/// Takes the divisions in front of the procedure division.
fn front<'a>(server: bool, name: &[u8], cursor: &mut Cursor<'a>) -> Option<Data<'a>>
    ensures { FollowsTokenStep (front server name.now cursor.old) result cursor.new }
{
    identification(name, cursor)?;
    environment(cursor)?;
    data_division(server, cursor)
}

/// The divisions, where each token may stand where it is. Else the cursor is left in front of the first
/// one that may not.
fn source<'a>(
    alloc: Global,
    server: bool,
    name: &[u8],
    cursor: &mut Cursor<'a>,
) -> Result<Option<Divisions<'a>>, Memory>
    ensures { IfOk result (λ found. FollowsTokenStep (source server name.now cursor.old) found cursor.new) }
{
    let Some(
        Data {
            stored,
            linkage,
            screens,
        },
    ) = front(server, name, cursor)
    else {
        return Ok(None);
    };
    match procedure_heading(alloc, server, linkage, cursor)? {
        Some(using_names) => Ok(Some(Divisions {
            stored,
            screens,
            using_names,
            procedure: cursor.tokens(),
        })),
        None => Ok(None),
    }
}

/// The line of the token in front; where none is left, that of the last token, or the first line.
fn line_at(first_line: u32, tokens: &[Token], left: &[Token]) -> u32
    ensures { result ≡ line_at first_line tokens.now left.now }
{
    match left {
        [token, ..] => token.line,
        [] => match tokens.last() {
            Some(token) => token.line,
            None => first_line,
        },
    }
}

/// The divisions of the source of a server or of a requester. The tokens are those of the text, whose
/// first line has a number.
///
/// It refuses exactly with 151 at the line of the first token that may not stand where it is. Where the
/// text ends too early that is the line of its last token, or its first line where it has none. The
/// rules stand in `docs/reference/LANGUAGE.md`.
pub fn divide<'a>(
    alloc: Global,
    server: bool,
    name: &[u8],
    text: &'a [u8],
    tokens: &'a [Token],
    first_line: u32,
) -> Result<Divisions<'a>, Refusal>
    ensures { Gives (λ found. found) result
        (divisions_of server name.now text.entry.now tokens.entry.now first_line) }
{
    let mut cursor = Cursor::new(text, tokens);
    match source(alloc, server, name, &mut cursor)? {
        Some(found) => Ok(found),
        None => Err(Fault {
            line: line_at(first_line, tokens, cursor.tokens()),
            code: FaultCode::BadDivision,
        }
        .into()),
    }
}
