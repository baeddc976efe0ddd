ghost use Rattle.std.specs.Prelude.{◌≡◌, ◌≢◌, ◌==◌, ◌<◌, ◌≤◌, ◌^◌, ◌∷◌, [], ℕ, length, position, IfSome, IfOk, MatchOption};
ghost use Rattle.std.specs.Fmt.{decimal};
ghost use Rattle.std.specs.Option.{option_map};
ghost use Rattle.pw_event.specs.Parsing.{named, is_odd, number, positive_count_read, cut, refresh, op, mode, member, after_keyword_read};

use crate::fault::EventFault;
use crate::keyword::Keyword;
use pw_code::file::FileOp;
use pw_code::lock::LockMode;
use pw_code::names::may_name;

/// Refuses a word that is no name.
#[tactic(auto, unfolding(crate::specs::Parsing::named))]
pub fn named(word: &[u8]) -> Result<(), EventFault>
    ensures { result ≡ named word.now }
{
    if may_name(word) {
        Ok(())
    } else {
        Err(EventFault::Bad)
    }
}

/// Whether a sign stands in front, or a zero before other digits.
fn is_odd(word: &[u8]) -> bool
    ensures { result ≡ is_odd word.now }
{
    match word {
        [b'+', ..] => true,
        [b'0', _, ..] => true,
        _ => false,
    }
}

/// The number of which this byte is the only decimal digit: most numbers of a log have one.
fn digit_of(byte: u8) -> Option<u32>
    ensures { MatchOption result ((n : ℕ) → n < 2 ^ 32 → byte ∷ [] ≢ decimal n)
        (λ n. (byte ∷ [] ≡ decimal n) × (n < 2 ^ 32)) }
{
    if byte.is_ascii_digit() {
        Some(u32::from(byte - b'0'))
    } else {
        None
    }
}

/// The number of which the word is the decimal digits, without leading zeros.
fn decimal(word: &[u8]) -> Option<u32>
    ensures { MatchOption result ((n : ℕ) → n < 2 ^ 32 → word.now ≢ decimal n)
        (λ n. (word.now ≡ decimal n) × (n < 2 ^ 32)) }
{
    match word {
        [digit] => digit_of(*digit),
        _ => parsed(word),
    }
}

/// The same, for a word of any length.
fn parsed(word: &[u8]) -> Option<u32>
    ensures { MatchOption result ((n : ℕ) → n < 2 ^ 32 → word.now ≢ decimal n)
        (λ n. (word.now ≡ decimal n) × (n < 2 ^ 32)) }
{
    if is_odd(word) {
        return None;
    }
    let Ok(text) = std::str::from_utf8(word) else {
        return None;
    };
    match text.parse() {
        Ok(number) => Some(number),
        Err(_) => None,
    }
}

/// The number of which the word is the decimal digits, up to a limit.
pub fn number(word: &[u8], limit: u32) -> Result<u32, EventFault>
    ensures value { result ≡ number limit word.now }
    ensures bound { IfOk result (λ number. number ≤ limit) }
{
    match decimal(word) {
        Some(number) => {
            if number <= limit {
                Ok(number)
            } else {
                Err(EventFault::Bad)
            }
        }
        None => Err(EventFault::Bad),
    }
}

/// A number from 1.
#[tactic(auto, unfolding(crate::specs::Parsing::positive_count_read))]
pub fn counted(word: &[u8]) -> Result<u32, EventFault>
    ensures { result ≡ positive_count_read word.now }
{
    let number = number(word, u32::MAX)?;
    if number == 0 {
        Err(EventFault::Bad)
    } else {
        Ok(number)
    }
}

/// A file status or a run fault.
pub fn code(word: &[u8]) -> Result<u16, EventFault>
    ensures { result ≡ number 65535 word.now }
{
    let number = number(word, 65535)?;
    Ok(number as u16)
}

/// The place of the first point.
fn point(word: &[u8]) -> Option<usize>
    ensures place { result ≡ position (λ byte. byte == 46) word.now }
    ensures bound { IfSome result (λ place. place < length word.now) }
{
    word.iter().position(|byte| *byte == b'.')
}

/// What stands before and behind the first point.
#[tactic(auto, unfolding(crate::specs::Parsing::cut))]
fn cut(word: &[u8]) -> Option<(&[u8], &[u8])>
    ensures { option_map (λ parts. (parts.0.now, parts.1.now)) result ≡ cut word.now }
{
    let place = point(word)?;
    Some((word.split_at(place).0, word.split_at(place + 1).1))
}

/// The phase, the attempt and the k of a refresh number.
#[tactic(auto, unfolding(crate::specs::Parsing::refresh))]
pub fn refresh(word: &[u8]) -> Result<(u32, u32, u32), EventFault>
    ensures { result ≡ refresh word.now }
{
    let Some((phase, behind)) = cut(word) else {
        return Err(EventFault::Bad);
    };
    let Some((attempt, k)) = cut(behind) else {
        return Err(EventFault::Bad);
    };
    let phase = number(phase, u32::MAX)?;
    let attempt = number(attempt, u32::MAX)?;
    let k = number(k, u32::MAX)?;
    Ok((phase, attempt, k))
}

/// An operation. The locking reads have no words of their own.
#[tactic(auto, unfolding(crate::specs::Parsing::op))]
pub fn op(word: &[u8]) -> Result<FileOp, EventFault>
    ensures { result ≡ op word.now }
{
    match Keyword::of(word)? {
        Keyword::Read => Ok(FileOp::Read),
        Keyword::Next => Ok(FileOp::Next),
        Keyword::Write => Ok(FileOp::Write),
        Keyword::Rewrite => Ok(FileOp::Rewrite),
        Keyword::Delete => Ok(FileOp::Delete),
        _ => Err(EventFault::Bad),
    }
}

/// The mode of a lock.
#[tactic(auto, unfolding(crate::specs::Parsing::mode))]
pub fn mode(word: &[u8]) -> Result<LockMode, EventFault>
    ensures { result ≡ mode word.now }
{
    match Keyword::of(word)? {
        Keyword::Shared => Ok(LockMode::Shared),
        Keyword::Exclusive => Ok(LockMode::Exclusive),
        _ => Err(EventFault::Bad),
    }
}

/// Whether a member of a pair is its primary.
#[tactic(auto, unfolding(crate::specs::Parsing::member))]
pub fn member(word: &[u8]) -> Result<bool, EventFault>
    ensures { result ≡ member word.now }
{
    match Keyword::of(word)? {
        Keyword::Primary => Ok(true),
        Keyword::Backup => Ok(false),
        _ => Err(EventFault::Bad),
    }
}

/// Refuses a word other than AFTER.
#[tactic(auto, unfolding(crate::specs::Parsing::after_keyword_read))]
pub fn after(word: &[u8]) -> Result<(), EventFault>
    ensures { result ≡ after_keyword_read word.now }
{
    match Keyword::of(word)? {
        Keyword::After => Ok(()),
        _ => Err(EventFault::Bad),
    }
}
