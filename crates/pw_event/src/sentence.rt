ghost use Rattle.std.specs.Prelude.{◌≡◌, map, IfOk};
ghost use Rattle.pw_event.specs.Line.{sentence};

use pw_base::bytes::Bytes;
use pw_base::memory::Memory;
use std::alloc::Global;

/// Words with single spaces between them.
pub fn sentence(alloc: Global, words: &[&[u8]]) -> Result<Bytes, Memory>
    ensures { IfOk result (λ text. text ≡ sentence (map (λ word. word.now) words.now)) }
{
    let Some((first, rest)) = words.split_first() else {
        return Ok(Bytes::new(alloc));
    };
    let mut text = Bytes::from_slice(alloc, first)?;
    for word in rest {
        text.push(b' ')?;
        text.extend(word)?;
    }
    Ok(text)
}
