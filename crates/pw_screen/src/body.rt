ghost use Rattle.std.specs.Prelude.{◌≡◌};
ghost use Rattle.pw_text.specs.Cursor.{ReadsTokens, behind};
ghost use Rattle.pw_screen.specs.Clauses.{whole, position, place, is_size_end, is_screen_end, body_by, body_of};

use crate::clauses::{Clauses, clauses_in};
use pw_data::clauses::is_end;
use pw_data::layout::Layout;
use pw_data::literal::whole_number;
use pw_text::cursor::Cursor;
use pw_text::token::TokenKind;

/// The row and the column that a field names, 0 to 1,001 each: every larger number counts as 1,001.
#[derive(Clone, Copy)]
pub struct At {
    pub row: u16,
    pub column: u16,
}

/// What stands behind the name of a field: its row and column, and its clauses.
#[derive(Clone, Copy)]
pub struct FieldBody {
    pub at: At,
    pub clauses: Clauses,
}

/// Reads a whole number without a sign.
fn whole(cursor: &mut Cursor<'_>) -> Option<u16>
    ensures { ReadsTokens (whole cursor.old) result cursor.new }
{
    let token = cursor.expect(TokenKind::Number)?;
    whole_number(token.spelling(cursor.text()))
}

/// Reads two whole numbers, a row and a column.
fn position(cursor: &mut Cursor<'_>) -> Option<At>
    ensures { ReadsTokens (position cursor.old) result cursor.new }
{
    let row = whole(cursor)?;
    let column = whole(cursor)?;
    Some(At { row, column })
}

/// Whether the numbers 24 and 80 and a period as the last token are left.
fn is_size_end(cursor: &mut Cursor<'_>) -> bool
    ensures { result ≡ is_size_end (position cursor.old) }
{
    match position(cursor) {
        Some(At { row, column }) => (row == 24 && column == 80) && is_end(cursor),
        None => false,
    }
}

/// Whether what is left stands behind the name of a screen: BASE or not, SIZE 24, 80 or not, and a
/// period as the last token.
pub fn is_screen_end(cursor: &Cursor<'_>) -> bool
    ensures { result ≡ is_screen_end cursor.now }
{
    let mut ahead = cursor.fork();
    let _base = ahead.eat_word(b"BASE");
    if ahead.eat_word(b"SIZE") {
        is_size_end(&mut ahead)
    } else {
        is_end(&ahead)
    }
}

/// Reads AT, a row and a column.
fn place(cursor: &mut Cursor<'_>) -> Option<At>
    ensures { ReadsTokens (place cursor.old) result cursor.new }
{
    let _at = cursor.expect_word(b"AT")?;
    position(cursor)
}

/// What stands behind the name of a field: AT row, column and clauses, up to a period as the last
/// token. It is None where that has another form.
pub fn body_of(layout: &Layout, cursor: &Cursor<'_>) -> Option<FieldBody>
    ensures { result ≡ body_of layout.now cursor.now }
{
    let mut ahead = cursor.fork();
    let at = place(&mut ahead)?;
    let clauses = clauses_in(layout, &ahead)?;
    Some(FieldBody { at, clauses })
}
