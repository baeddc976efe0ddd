ghost use Rattle.std.specs.Prelude.{◌≡◌, map, IfOk};
ghost use Rattle.std.specs.Option.{option_map};
ghost use Rattle.pw_expand.specs.Numbers.{is_count, count_in, counts_in};

use pw_base::memory::Memory;
use pw_sections::word::{are_digits, value_of};
use std::alloc::Global;

/// The most digits of a number.
const MAX_DIGITS: usize = 10;

/// Whether a word is 1 to 10 digits, of which the first is no zero.
fn is_count(word: &[u8]) -> bool
    ensures { result ≡ is_count word.now }
{
    match word {
        [first, ..] => *first != b'0' && (word.len() <= MAX_DIGITS && are_digits(word)),
        [] => false,
    }
}

/// The number from 1 to 4,294,967,295 that a word is, None exactly where it is none.
#[tactic(auto, unfolding(crate::specs::Numbers::count_in))]
pub fn count_in(word: &[u8]) -> Option<u32>
    ensures { result ≡ count_in word.now }
{
    if is_count(word) {
        let value = value_of(word);
        if value <= 4_294_967_295 {
            return Some(value as u32);
        }
    }
    None
}

/// The numbers that words are, None exactly where one is none.
pub fn counts_in(alloc: Global, words: &[&[u8]]) -> Result<Option<Vec<u32>>, Memory>
    ensures { IfOk result (λ counts. option_map (λ counts. counts.items) counts ≡ counts_in (map (λ word. word.now) words.now)) }
{
    let mut counts = Vec::new(alloc);
    for word in words {
        match count_in(word) {
            Some(count) => counts.push(count)?,
            None => return Ok(None),
        }
    }
    Ok(Some(counts))
}
