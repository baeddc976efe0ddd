ghost use Rattle.std.specs.Prelude.{◌≡◌, ◌==◌, map, IfOk};
ghost use Rattle.std.specs.List.{slice_split};

use std::alloc::{AllocError, Global};

/// Most lines have no more words than these: there is room for so many at once.
const USUAL_WORDS: usize = 8;

/// The words of a line: what stands between its spaces.
pub fn words(alloc: Global, line: &[u8]) -> Result<Vec<&[u8]>, AllocError>
    ensures { IfOk result (λ words. map (λ word. word.now) words.items ≡ slice_split (λ byte. byte == 32) line.now) }
{
    let mut words = Vec::with_capacity(alloc, USUAL_WORDS)?;
    words.extend(line.split(|byte| *byte == b' '))?;
    Ok(words)
}
