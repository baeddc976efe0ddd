ghost use Rattle.std.specs.Prelude.{◌≡◌, ◌≤◌, IfOk, length, take_while, option_and_then, option_copied};
ghost use Rattle.pw_data.specs.Names.{has_name};
ghost use Rattle.pw_data.specs.Parts.{left_of};
ghost use Rattle.pw_divisions.specs.Steps.{FollowsTokenStep};
ghost use Rattle.pw_divisions.specs.Divisions.{parameter_by, parameter_of, parameters, is_parameter, one_or_more, used_names, using_names, begins_procedure, period_behind, procedure_heading};

use crate::entries::take_entry;
use crate::names::{has_name, level_of, own_name_of, put_name};
use crate::steps::{period, word};
use pw_base::memory::Memory;
use pw_text::cursor::Cursor;
use pw_text::token::{Token, TokenKind};
use pw_words::names::Names;
use std::alloc::Global;

/// The name of an entry of LINKAGE SECTION that USING may name: that of an entry of level 01.
fn parameter_of(entry: &Cursor<'_>) -> Option<Token>
    ensures { result ≡ parameter_of entry.now.text entry.now.tokens }
{
    if level_of(entry)? == 1 {
        own_name_of(entry)
    } else {
        None
    }
}

/// The names of the level-01 items of LINKAGE SECTION, as they stand in its entries.
fn parameters(alloc: Global, text: &[u8], linkage: &[Token]) -> Result<Names, Memory>
    ensures { IfOk result (λ names. has_name names ≡ parameters text.now linkage.now) }
{
    let mut names = Names::new(alloc);
    let mut cursor = Cursor::new(text, linkage);
    while !cursor.is_empty() {
        let entry = take_entry(&mut cursor);
        let _taken = put_name(alloc, text, parameter_of(&entry), &mut names)?;
    }
    Ok(names)
}

/// Whether a token is one of the names.
fn is_parameter(alloc: Global, text: &[u8], names: &Names, token: Token) -> Result<bool, Memory>
    ensures { IfOk result (λ found. found ≡ is_parameter text.now (has_name names.now) token) }
{
    if token.kind.is(TokenKind::Word) {
        has_name(alloc, names, token.spelling(text))
    } else {
        Ok(false)
    }
}

/// How many tokens in front are among the names.
fn parameter_count(alloc: Global, names: &Names, cursor: &Cursor<'_>) -> Result<usize, Memory>
    ensures value { IfOk result (λ count.
        count ≡ length
        (take_while (is_parameter cursor.now.text (has_name names.now)) cursor.now.tokens)) }
    ensures bound { IfOk result (λ count. count ≤ length cursor.now.tokens) }
{
    let mut count = 0;
    let mut rest = cursor.tokens();
    while let Some((token, behind)) = rest.split_first() {
        if !is_parameter(alloc, cursor.text(), names, *token)? {
            return Ok(count);
        }
        count += 1;
        rest = behind;
    }
    Ok(count)
}

/// Takes so many tokens, where they are one or more.
fn one_or_more<'a>(count: usize, cursor: &mut Cursor<'a>) -> Option<&'a [Token]>
    requires { count ≤ length cursor.old.tokens }
    ensures { FollowsTokenStep (one_or_more count cursor.old) (option_copied result) cursor.new }
{
    if count == 0 {
        None
    } else {
        Some(cursor.take(count).tokens())
    }
}

/// Takes what stands behind USING: one or more names of level-01 items of LINKAGE SECTION.
fn used_names<'a>(
    alloc: Global,
    linkage: &[Token],
    cursor: &mut Cursor<'a>,
) -> Result<Option<&'a [Token]>, Memory>
    ensures { IfOk result (λ names.
        FollowsTokenStep (used_names linkage.now cursor.old) (option_copied names) cursor.new) }
{
    let names = parameters(alloc, cursor.text(), linkage)?;
    let count = parameter_count(alloc, &names, cursor)?;
    Ok(one_or_more(count, cursor))
}

/// Takes USING and its names, where they may be there and are there.
fn using_names<'a>(
    alloc: Global,
    server: bool,
    linkage: &[Token],
    cursor: &mut Cursor<'a>,
) -> Result<Option<&'a [Token]>, Memory>
    ensures { IfOk result (λ names.
        FollowsTokenStep (using_names server linkage.now cursor.old) (option_copied names) cursor.new) }
{
    if !server && cursor.eat_word(b"USING") {
        used_names(alloc, linkage, cursor)
    } else {
        Ok(Some(&[]))
    }
}

/// Takes the words that begin the procedure division.
fn begins_procedure(cursor: &mut Cursor<'_>) -> Option<()>
    ensures { FollowsTokenStep (begins_procedure cursor.old) result cursor.new }
{
    word(cursor, b"PROCEDURE")?;
    word(cursor, b"DIVISION")
}

/// Takes the period behind the names of USING, and gives these.
fn period_behind<'a>(names: &'a [Token], cursor: &mut Cursor<'_>) -> Option<&'a [Token]>
    ensures { FollowsTokenStep (period_behind names.entry.now cursor.old) (option_copied result) cursor.new }
{
    period(cursor)?;
    Some(names)
}

/// Takes the heading of the procedure division. It gives the names of its USING; a server has none.
pub fn procedure_heading<'a>(
    alloc: Global,
    server: bool,
    linkage: &[Token],
    cursor: &mut Cursor<'a>,
) -> Result<Option<&'a [Token]>, Memory>
    ensures { IfOk result (λ names.
        FollowsTokenStep (procedure_heading server linkage.now cursor.old) (option_copied names) cursor.new) }
{
    if begins_procedure(cursor).is_none() {
        return Ok(None);
    }
    let Some(names) = using_names(alloc, server, linkage, cursor)? else {
        return Ok(None);
    };
    Ok(period_behind(names, cursor))
}
