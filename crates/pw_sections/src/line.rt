ghost use Rattle.std.specs.Prelude.{◌≡◌, ◌==◌, ◌<◌, [], ◌∷◌, length, position, IfSome, MatchOption};
ghost use Rattle.pw_sections.specs.Lines.{without_return, lines};

const LF: u8 = b'\n';

/// The line without a CR at its end.
fn without_return(line: &[u8]) -> &[u8]
    ensures { result.now ≡ without_return line.now }
{
    line.strip_suffix(b"\r").unwrap_or(line)
}

/// The place of the first LF, from 0, and None where there is none. The first line of the text ends there
/// (docs/reference/DECK.md).
pub fn line_end(text: &[u8]) -> Option<usize>
    ensures place { result ≡ position (λ byte. byte == 10) text.now }
    ensures bound { IfSome result (λ end. end < length text.now) }
{
    text.iter().position(|byte| *byte == LF)
}

/// The first line of a text, and what is behind it; None exactly where nothing is left. A line ends
/// with LF, and the last one may lack it; one CR before the LF is no part of the line.
pub fn next_line(text: &[u8]) -> Option<(&[u8], &[u8])>
    ensures cases { MatchOption result (text.now ≡ []) (λ found. lines text.now ≡ found.0.now ∷ lines found.1.now) }
    ensures shorter { IfSome result (λ found. length found.1.now < length text.now) }
{
    if text.is_empty() {
        return None;
    }
    match line_end(text) {
        None => Some((text, &[])),
        Some(end) => Some((without_return(&text[..end]), &text[end + 1..])),
    }
}
