ghost use Rattle.std.specs.Prelude.{◌≡◌, ◌++◌, ◌∷◌, [], OnOk, map};
ghost use Rattle.pw_gen.specs.Generated.{text_of};

use pw_base::bytes::Bytes;
use pw_base::memory::Memory;

/// Puts a line with its end behind a text.
pub fn put_line(text: &mut Bytes, line: &[u8]) -> Result<(), Memory>
    ensures { OnOk result (text.new ≡ text.old ++ (line.now ++ 10 ∷ [])) }
{
    text.extend(line)?;
    text.push(b'\n')
}

/// Puts some lines behind a text.
pub fn put_lines(text: &mut Bytes, lines: &[&[u8]]) -> Result<(), Memory>
    ensures { OnOk result (text.new ≡ text.old ++ text_of (map (λ line. line.now) lines.now)) }
{
    for line in lines {
        put_line(text, line)?;
    }
    Ok(())
}
