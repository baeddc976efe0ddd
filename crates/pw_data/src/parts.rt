ghost use Rattle.std.specs.Prelude.{◌≡◌, ◌<◌, ◌≤◌, true, length, take};
ghost use Rattle.pw_text.specs.Cursor.{behind};
ghost use Rattle.pw_data.specs.Parts.{is_heading, is_linkage, heading_size, ends_entry, entry_size};

use pw_text::cursor::Cursor;
use pw_text::token::{Token, TokenKind};

/// Whether the two words that begin a section stand in front.
pub fn is_heading(cursor: &Cursor<'_>) -> bool
    ensures { result ≡ is_heading cursor.now }
{
    let mut ahead = cursor.fork();
    let _name = ahead.next();
    (cursor.sees_word(b"WORKING-STORAGE") || cursor.sees_word(b"LINKAGE"))
        && ahead.sees_word(b"SECTION")
}

/// Takes the heading in front, its two words and a period behind them, where it is there. It gives
/// whether its section is LINKAGE.
pub fn take_heading(cursor: &mut Cursor<'_>) -> bool
    ensures linked { result ≡ is_linkage cursor.old }
    ensures left { cursor.new ≡ behind (heading_size cursor.old) cursor.old }
{
    let linked = cursor.sees_word(b"LINKAGE");
    let _name = cursor.next();
    let _section = cursor.next();
    let _period = cursor.eat(TokenKind::Period);
    linked
}

/// Whether an entry ends with a token. The cursor stands behind it.
fn ends_entry(token: Token, ahead: &Cursor<'_>) -> bool
    ensures { result ≡ ends_entry ahead.now.text token ahead.now.tokens }
{
    token.kind.is(TokenKind::Period) || is_heading(ahead)
}

/// How many tokens the entry in front has.
fn entry_size(cursor: &Cursor<'_>) -> usize
    ensures value { result ≡ entry_size cursor.now.text cursor.now.tokens }
    ensures some { 0 < length cursor.now.tokens → 0 < result }
    ensures bound { result ≤ length cursor.now.tokens }
{
    let mut size = 0;
    let mut ahead = cursor.fork();
    while let Some(token) = ahead.next() {
        size += 1;
        if ends_entry(token, &ahead) {
            return size;
        }
    }
    size
}

/// Takes the entry in front: the tokens up to its period, or up to the next heading or the last token
/// where it has none.
pub fn take_entry<'a>(cursor: &mut Cursor<'a>) -> Cursor<'a>
    ensures text { result.text ≡ cursor.old.text }
    ensures tokens { result.tokens ≡ take (entry_size cursor.old.text cursor.old.tokens) cursor.old.tokens }
    ensures left { cursor.new ≡ behind (entry_size cursor.old.text cursor.old.tokens) cursor.old }
    ensures some { 0 < length cursor.old.tokens → 0 < entry_size cursor.old.text cursor.old.tokens }
{
    let size = entry_size(cursor);
    cursor.take(size)
}
