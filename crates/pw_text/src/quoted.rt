ghost use Rattle.std.specs.Prelude.{◌≡◌, ◌≤◌, IfSome, false, length};
ghost use Rattle.pw_text.specs.Items.{quoted};

/// The size of a text behind its first quote, with its last; none where its line ends before.
pub fn quoted(bytes: &[u8]) -> Option<usize>
    ensures value { result ≡ quoted false bytes.now }
    ensures bound { IfSome result (λ size. size ≤ length bytes.now) }
{
    let mut closed = false;
    for (i, byte) in bytes.iter().enumerate() {
        if closed {
            if *byte != b'"' {
                return Some(i);
            }
            closed = false;
        } else if *byte == b'\n' {
            return None;
        } else if *byte == b'"' {
            closed = true;
        }
    }
    if closed { Some(bytes.len()) } else { None }
}
