ghost use Rattle.std.specs.Prelude.{◌≡◌, ◌+◌, ◌≤◌, false, length, min, take_while, IfSome};
ghost use Rattle.std.specs.Char.{is_ascii_digit};
ghost use Rattle.std.specs.Option.{option_map};
ghost use Rattle.pw_picture.specs.Symbols.{may_repeat, begins_with, value_behind, count_in, count_behind, longest};
ghost use Rattle.pw_picture.specs.Runs.{capped};

/// The most symbols that a picture has.
pub const LONGEST: usize = 32_000;

/// Whether a symbol may have a count.
fn may_repeat(symbol: u8) -> bool
    ensures { result ≡ may_repeat symbol }
{
    symbol == b'X' || symbol == b'9' || symbol == b'Z'
}

/// Whether the first character is this one. An empty text has none (docs/reference/LANGUAGE.md).
pub fn begins_with(wanted: u8, text: &[u8]) -> bool
    ensures { result ≡ begins_with wanted text.now }
{
    match text {
        [] => false,
        [first, ..] => *first == wanted,
    }
}

/// The value of a count. More than the longest picture is one more than it.
fn count_of(digits: &[u8]) -> u32
    ensures { result ≡ min (value_behind 0 digits.now) (longest + 1) }
{
    let mut value: u32 = 0;
    for digit in digits {
        value = (10 * value + digit.saturating_sub(b'0') as u32).min(LONGEST as u32 + 1);
    }
    value
}

/// How many digits are in front, up to the first other character (docs/reference/LANGUAGE.md).
pub fn digits_in_front(text: &[u8]) -> usize
    ensures digits { result ≡ length (take_while is_ascii_digit text.now) }
    ensures bound { result ≤ length text.now }
{
    text.iter().take_while(|byte| byte.is_ascii_digit()).count()
}

/// How often a symbol stands whose count begins behind a `(`, and how many characters it takes.
fn count_in(text: &[u8]) -> Option<(u32, usize)>
    ensures count { result ≡ option_map capped (count_in text.now) }
    ensures size { IfSome result (λ found. found.1 ≤ length text.now + 1) }
{
    let digits = digits_in_front(text);
    let count = count_of(&text[..digits]);
    if count >= 1 && begins_with(b')', &text[digits..]) {
        Some((count, digits + 2))
    } else {
        None
    }
}

/// How often a symbol stands, and how many characters behind it say so. A count that is longer than
/// every picture is one more than the longest.
pub fn count_behind(symbol: u8, text: &[u8]) -> Option<(u32, usize)>
    ensures count { result ≡ option_map capped (count_behind symbol text.now) }
    ensures some { IfSome result (λ found. 1 ≤ found.0) }
    ensures single { IfSome result (λ found. may_repeat symbol ≡ false → found.0 ≡ 1) }
    ensures size { IfSome result (λ found. found.1 ≤ length text.now) }
{
    match text {
        [b'(', behind @ ..] => {
            if may_repeat(symbol) {
                count_in(behind)
            } else {
                None
            }
        }
        _ => Some((1, 0)),
    }
}
