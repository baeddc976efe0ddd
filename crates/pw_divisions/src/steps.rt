ghost use Rattle.std.specs.Prelude.{◌≡◌, ◌&&◌, ◌≤◌, Some, length, option_copied};
ghost use Rattle.pw_divisions.specs.Steps.{FollowsTokenStep, word, period, size_up_to, up_to};
ghost use Rattle.pw_divisions.specs.Divisions.{begins_division, begins_section, ends_text, environment_text, environment, section_text, section};

use pw_text::cursor::Cursor;
use pw_text::token::{Token, TokenKind};

/// Takes this word, in either case. None leaves the cursor where it was.
pub fn word(cursor: &mut Cursor<'_>, name: &[u8]) -> Option<()>
    ensures { FollowsTokenStep (word name.now cursor.old) result cursor.new }
{
    if cursor.eat_word(name) {
        Some(())
    } else {
        None
    }
}

/// Takes a period. None leaves the cursor where it was.
pub fn period(cursor: &mut Cursor<'_>) -> Option<()>
    ensures { FollowsTokenStep (period cursor.old) result cursor.new }
{
    if cursor.eat(TokenKind::Period) {
        Some(())
    } else {
        None
    }
}

/// Whether a division begins here.
fn begins_division(cursor: &Cursor<'_>) -> bool
    ensures { result ≡ begins_division cursor.now }
{
    let mut ahead = cursor.fork();
    let _name = ahead.next();
    cursor.sees(TokenKind::Word) && ahead.sees_word(b"DIVISION")
}

/// Whether a section of the data division begins here.
fn begins_section(cursor: &Cursor<'_>) -> bool
    ensures { result ≡ begins_section cursor.now }
{
    let mut ahead = cursor.fork();
    let _name = ahead.next();
    (cursor.sees_word(b"WORKING-STORAGE")
        || (cursor.sees_word(b"LINKAGE") || cursor.sees_word(b"SCREEN")))
        && ahead.sees_word(b"SECTION")
}

/// Whether a text ends here: where a division begins, and within the data division also where a section
/// begins.
fn ends_text(in_data: bool, cursor: &Cursor<'_>) -> bool
    ensures { result ≡ ends_text in_data cursor.now }
{
    (in_data && begins_section(cursor)) || begins_division(cursor)
}

/// How many tokens stand in front of the end of a text.
fn text_size(in_data: bool, cursor: &Cursor<'_>) -> usize
    ensures value { result ≡ size_up_to (ends_text in_data) cursor.now.text cursor.now.tokens }
    ensures bound { result ≤ length cursor.now.tokens }
{
    let mut size = 0;
    let mut ahead = cursor.fork();
    while !ahead.is_empty() {
        if ends_text(in_data, &ahead) {
            return size;
        }
        let _token = ahead.next();
        size += 1;
    }
    size
}

/// Takes the tokens up to the end of a text.
fn take_text<'a>(in_data: bool, cursor: &mut Cursor<'a>) -> &'a [Token]
    ensures { FollowsTokenStep (up_to (ends_text in_data) cursor.old) (Some result.now) cursor.new }
{
    let size = text_size(in_data, cursor);
    cursor.take(size).tokens()
}

/// Takes the environment division, where it is there: its heading, and its text up to the next division.
pub fn environment(cursor: &mut Cursor<'_>) -> Option<()>
    ensures { FollowsTokenStep (environment cursor.old) result cursor.new }
{
    if cursor.eat_word(b"ENVIRONMENT") {
        word(cursor, b"DIVISION")?;
        period(cursor)?;
        let _text = take_text(false, cursor);
    }
    Some(())
}

/// Takes what stands behind the name of a section: its entries, up to the end of the section.
fn section_text<'a>(cursor: &mut Cursor<'a>) -> Option<&'a [Token]>
    ensures { FollowsTokenStep (section_text cursor.old) (option_copied result) cursor.new }
{
    word(cursor, b"SECTION")?;
    period(cursor)?;
    Some(take_text(true, cursor))
}

/// Takes a section of the data division, where it may be there and is there. It gives its entries.
pub fn section<'a>(may_be: bool, name: &[u8], cursor: &mut Cursor<'a>) -> Option<&'a [Token]>
    ensures { FollowsTokenStep (section may_be name.now cursor.old) (option_copied result) cursor.new }
{
    if may_be && cursor.eat_word(name) {
        section_text(cursor)
    } else {
        Some(&[])
    }
}
