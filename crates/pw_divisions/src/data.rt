ghost use Rattle.std.specs.Prelude.{◌≡◌, option_copied};
ghost use Rattle.pw_divisions.specs.Steps.{FollowsTokenStep, between};
ghost use Rattle.pw_divisions.specs.Divisions.{stored_sections, sections, data_sections, data_division};

use crate::steps::{period, section, word};
use pw_text::cursor::Cursor;
use pw_text::token::Token;
use std::marker::Model;

/// The data division of a source. Contracts see its parts as lists.
#[derive(Drop)]
pub struct Data<'a> {
    /// The tokens of working storage and linkage, with the headings of the two.
    pub stored: &'a [Token],
    /// The entries of LINKAGE SECTION.
    pub linkage: &'a [Token],
    /// The entries of SCREEN SECTION.
    pub screens: &'a [Token],
}

impl<'a> Model for Data<'a> {
    ghost use Rattle.pw_divisions.specs.Divided.{DataDivision};

    ghost Value = { DataDivision };

    ghost view = { λ found. record {
      stored = found.stored.now;
      linkage = found.linkage.now;
      screens = found.screens.now;
    } };
}

/// Takes working storage and linkage, each where it is there. It gives the entries of linkage.
fn stored_sections<'a>(server: bool, cursor: &mut Cursor<'a>) -> Option<&'a [Token]>
    ensures { FollowsTokenStep (stored_sections server cursor.old) (option_copied result) cursor.new }
{
    let _working = section(true, b"WORKING-STORAGE", cursor)?;
    section(!server, b"LINKAGE", cursor)
}

/// The tokens that were read from a place to where the cursor stands.
fn between<'a>(from: &Cursor<'a>, cursor: &Cursor<'a>) -> &'a [Token]
    ensures { result.now ≡ between from.now cursor.now }
{
    let (read, _rest) = from
        .tokens()
        .split_at(from.len().saturating_sub(cursor.len()));
    read
}

/// Takes the sections, each where it is there.
fn sections<'a>(server: bool, cursor: &mut Cursor<'a>) -> Option<Data<'a>>
    ensures { FollowsTokenStep (sections server cursor.old) result cursor.new }
{
    let from = cursor.fork();
    let linkage = stored_sections(server, cursor)?;
    let stored = between(&from, cursor);
    let screens = section(!server, b"SCREEN", cursor)?;
    Some(Data {
        stored,
        linkage,
        screens,
    })
}

/// Takes what stands behind DATA: its division.
fn data_sections<'a>(server: bool, cursor: &mut Cursor<'a>) -> Option<Data<'a>>
    ensures { FollowsTokenStep (data_sections server cursor.old) result cursor.new }
{
    word(cursor, b"DIVISION")?;
    period(cursor)?;
    sections(server, cursor)
}

/// Takes the data division, where it is there. A server has no LINKAGE SECTION and no SCREEN SECTION.
pub fn data_division<'a>(server: bool, cursor: &mut Cursor<'a>) -> Option<Data<'a>>
    ensures { FollowsTokenStep (data_division server cursor.old) result cursor.new }
{
    if cursor.eat_word(b"DATA") {
        data_sections(server, cursor)
    } else {
        Some(Data {
            stored: &[],
            linkage: &[],
            screens: &[],
        })
    }
}
