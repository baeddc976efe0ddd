ghost use Rattle.std.specs.Prelude.{◌≡◌, ◌∷◌, ◌<◌, ◌≤◌, not, length, take, drop, take_while};
ghost use Rattle.pw_text.specs.declared.token.TokenKind.TheVariants.{Period};
ghost use Rattle.pw_text.specs.Cursor.{has_kind};
ghost use Rattle.pw_divisions.specs.Entries.{division_entries_of};

use pw_text::cursor::Cursor;
use pw_text::token::{Token, TokenKind};

/// How many tokens stand in front of the first period, or of the end.
fn front_size(tokens: &[Token]) -> usize
    ensures value { result ≡ length (take_while (λ token. not (has_kind Period token)) tokens.now) }
    ensures bound { result ≤ length tokens.now }
{
    tokens
        .iter()
        .take_while(|token| !token.kind.is(TokenKind::Period))
        .count()
}

/// How many tokens the entry in front has: those up to its period, or all where it has none.
fn entry_size(tokens: &[Token]) -> usize
    requires { 0 < length tokens.now }
    ensures cut { division_entries_of tokens.now
        ≡ take result tokens.now ∷ division_entries_of (drop result tokens.now) }
    ensures some { 0 < result }
    ensures bound { result ≤ length tokens.now }
{
    let front = front_size(tokens);
    if front < tokens.len() {
        front + 1
    } else {
        front
    }
}

/// Takes the entry in front: the tokens up to its period, or all where it has none.
pub fn take_entry<'a>(cursor: &mut Cursor<'a>) -> Cursor<'a>
    requires { 0 < length cursor.old.tokens }
    ensures text { result.text ≡ cursor.old.text }
    ensures same_text { cursor.new.text ≡ cursor.old.text }
    ensures cut { division_entries_of cursor.old.tokens ≡ result.tokens ∷ division_entries_of cursor.new.tokens }
    ensures shorter { length cursor.new.tokens < length cursor.old.tokens }
{
    let size = entry_size(cursor.tokens());
    cursor.take(size)
}
