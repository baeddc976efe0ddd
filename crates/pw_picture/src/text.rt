ghost use Rattle.std.specs.Prelude.{◌≡◌, length};
ghost use Rattle.pw_picture.specs.Text.{fitted};

/// Moves a text: spaces follow where it is too short, and it is cut at its end where it is too long.
pub fn move_text(from: &[u8], into: &mut [u8])
    ensures { into.new ≡ fitted (length into.old) from.now }
{
    let count = from.len().min(into.len());
    into[..count].copy_from_slice(&from[..count]);
    into[count..].fill(b' ');
}
