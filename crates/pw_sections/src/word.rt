ghost use Rattle.std.specs.Prelude.{◌≡◌, ◌==◌, ◌≢◌, ◌<◌, ◌≤◌, [], ◌∷◌, length, not, take_while, true, IfSome, IfOk, MatchOption, MatchBool};
ghost use Rattle.std.specs.List.{list_all};
ghost use Rattle.std.specs.Char.{is_ascii_digit};
ghost use Rattle.std.specs.Str.{str_to_ascii_uppercase};
ghost use Rattle.std.specs.Str.Parse.{digits_value};
ghost use Rattle.pw_base.specs.First.{Gives};
ghost use Rattle.pw_sections.specs.Steps.{or_refused};
ghost use Rattle.pw_sections.specs.Words.{words, name_in, is_number, word_number};

use pw_base::bytes::Bytes;
use pw_base::fault::Refusal;
use pw_base::fault_code::FaultCode;
use pw_base::memory::Memory;
use pw_code::names::may_name;
use std::alloc::Global;

/// The most digits that a number has.
const MAX_DIGITS: usize = 9;

/// How many spaces stand in front.
fn spaces(text: &[u8]) -> usize
    ensures value { result ≡ length (take_while (λ byte. byte == 32) text.now) }
    ensures bound { result ≤ length text.now }
{
    text.iter().take_while(|byte| **byte == b' ').count()
}

/// How many bytes other than spaces stand in front.
fn word_size(text: &[u8]) -> usize
    ensures value { result ≡ length (take_while (λ byte. not (byte == 32)) text.now) }
    ensures bound { result ≤ length text.now }
{
    text.iter().take_while(|byte| **byte != b' ').count()
}

/// The first word of a line, and what is behind it; None exactly where no word is left.
pub fn next_word(line: &[u8]) -> Option<(&[u8], &[u8])>
    ensures cases { MatchOption result (words line.now ≡ []) (λ found. words line.now ≡ found.0.now ∷ words found.1.now) }
    ensures shorter { IfSome result (λ found. length found.1.now < length line.now) }
{
    let rest = line.split_at(spaces(line)).1;
    if rest.is_empty() {
        return None;
    }
    Some(rest.split_at(word_size(rest)))
}

/// Whether no word is left.
pub fn is_blank(line: &[u8]) -> bool
    ensures { MatchBool result (words line.now ≡ []) (words line.now ≢ []) }
{
    next_word(line).is_none()
}

/// The word in upper case.
fn upper(alloc: Global, word: &[u8]) -> Result<Bytes, Memory>
    ensures { IfOk result (λ name. name ≡ str_to_ascii_uppercase word.now) }
{
    let mut name = Vec::from_slice(alloc, word)?;
    name.as_mut_slice().make_ascii_uppercase();
    Ok(Bytes::from_vec(name))
}

/// The name that a word is, in upper case; None exactly where it is none.
pub fn name_in(alloc: Global, word: &[u8]) -> Result<Option<Bytes>, Memory>
    ensures { IfOk result (λ name. name ≡ name_in word.now) }
{
    if may_name(word) {
        let name = upper(alloc, word)?;
        Ok(Some(name))
    } else {
        Ok(None)
    }
}

/// Whether each byte of a word is a digit.
pub fn are_digits(word: &[u8]) -> bool
    ensures { result ≡ list_all is_ascii_digit word.now }
{
    word.iter().all(|byte| byte.is_ascii_digit())
}

/// Whether a word is 1 to 9 digits.
fn is_number(word: &[u8]) -> bool
    ensures { result ≡ is_number word.now }
{
    match word.len() {
        1..=MAX_DIGITS => are_digits(word),
        _ => false,
    }
}

/// The number that at most 10 digits write.
pub fn value_of(word: &[u8]) -> u64
    requires few { length word.now ≤ 10 }
    requires digits { list_all is_ascii_digit word.now ≡ true }
    ensures { result ≡ digits_value 10 word.now }
{
    let mut value = 0;
    for byte in word {
        value = value * 10 + u64::from(*byte - b'0');
    }
    value
}

/// The number that a word is: 1 to 9 digits, leading zeros among them. None exactly where it is none.
pub fn number_in(word: &[u8]) -> Option<u32>
    ensures { result ≡ word_number word.now }
{
    if is_number(word) {
        Some(value_of(word) as u32)
    } else {
        None
    }
}

/// The name that a word of a line is, in upper case. It refuses the line for a code exactly where the
/// word is no name.
pub fn expect_name(alloc: Global, line: u32, code: FaultCode, word: &[u8]) -> Result<Bytes, Refusal>
    ensures { Gives (λ name. name) result (or_refused line code (name_in word.now)) }
{
    match name_in(alloc, word)? {
        Some(name) => Ok(name),
        None => Err(Refusal::At { line, code }),
    }
}
