ghost use Rattle.std.specs.Prelude.{◌≡◌, ◌==◌, ◌+◌, ◌∷◌, [], ◌<◌, ◌≤◌, ℕ, true, false, length, get_or, MatchOption, IfSome};
ghost use Rattle.pw_base.specs.Characters.{question_mark};
ghost use Rattle.pw_sections.specs.Parts.{cut, sections, front, IsAtSection, starts, begins_at, NoneBegins};

/// How many bytes are looked at together.
const BLOCK: usize = 64;

/// Whether a place of a text stands at the start of a line. The text stands there, or it does not.
fn starts_line(text: &[u8], at: usize, at_start: bool) -> bool
    requires { at < length text.now }
    ensures { result ≡ starts at_start text.now at }
{
    if at == 0 {
        at_start
    } else {
        text[at - 1] == b'\n'
    }
}

/// Whether a section line begins at a place of a text.
fn begins_section(text: &[u8], at: usize, at_start: bool) -> bool
    requires { at < length text.now }
    ensures { result ≡ begins_at at_start text.now at }
{
    starts_line(text, at, at_start) && text[at] == b'?'
}

/// Whether no byte is a `?`. It looks at all, so that several are looked at in one step.
fn has_no_mark(bytes: &[u8]) -> bool
    ensures { result ≡ true → (i : ℕ) → i < length bytes.now → (get_or bytes.now i 0 == question_mark) ≡ false }
{
    let mut none = true;
    let mut rest = bytes;
    while let Some((byte, behind)) = rest.split_first() {
        none = none & (*byte != b'?');
        rest = behind;
    }
    none
}

/// How many bytes from a place on begin no section line, one at least; None where one begins there.
fn bytes_passed(text: &[u8], at: usize, at_start: bool) -> Option<usize>
    requires { at < length text.now }
    ensures { MatchOption result (begins_at at_start text.now at ≡ true)
        (λ count. (0 < count) × (at + count ≤ length text.now) × NoneBegins at_start text.now at count) }
{
    let rest = text.split_at(at).1;
    let size = rest.len().min(BLOCK);
    if has_no_mark(rest.split_at(size).0) {
        Some(size)
    } else if begins_section(text, at, at_start) {
        None
    } else {
        Some(1)
    }
}

/// How many bytes stand before the first section line. The text stands at the start of a line, or it
/// does not.
fn front_size(text: &[u8], at_start: bool) -> usize
    ensures value { result ≡ length (cut at_start text.now).front }
    ensures bound { result ≤ length text.now }
{
    let mut at = 0;
    while at < text.len() {
        match bytes_passed(text, at, at_start) {
            Some(count) => at += count,
            None => return at,
        }
    }
    at
}

/// What stands before the first section line of a deck, and the sections.
pub fn split_front(text: &[u8]) -> (&[u8], &[u8])
    ensures front { result.0.now ≡ front text.now }
    ensures sections { sections result.1.now ≡ sections text.now }
    ensures at_section { IsAtSection result.1.now }
    ensures joined { length result.0.now + length result.1.now ≡ length text.now }
{
    text.split_at(front_size(text, true))
}

/// The first section with its section line, and what is behind it; None exactly where there is none.
pub fn next_section(text: &[u8]) -> Option<(&[u8], &[u8])>
    requires { IsAtSection text.now }
    ensures cases { MatchOption result (sections text.now ≡ []) (λ found. sections text.now ≡ found.0.now ∷ sections found.1.now) }
    ensures shorter { IfSome result (λ found. length found.1.now < length text.now) }
    ensures at_section { IfSome result (λ found. IsAtSection found.1.now) }
    ensures joined { IfSome result (λ found. length found.0.now + length found.1.now ≡ length text.now) }
{
    if text.is_empty() {
        return None;
    }
    let rest = text.split_at(1).1;
    let size = front_size(rest, false);
    Some(text.split_at(1 + size))
}
