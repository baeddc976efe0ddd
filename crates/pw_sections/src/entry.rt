ghost use Rattle.std.specs.Prelude.{◌≡◌, ◌==◌, ◌+◌, ◌*◌, ◌&&◌, ◌<◌, ◌≤◌, [], ◌∷◌, Option, None, Some, not, length, false, position, if◌then◌else◌, IfSome, IfOk};
ghost use Rattle.std.specs.List.{list_any};
ghost use Rattle.std.specs.Option.{option_map};
ghost use Rattle.std.specs.Str.{bytes_eq};
ghost use Rattle.pw_base.specs.First.{Gives};
ghost use Rattle.pw_base.specs.Limits.{longest_input};
ghost use Rattle.pw_code.specs.Limits.{most_pairs};
ghost use Rattle.pw_sections.specs.Steps.{line_taken};
ghost use Rattle.pw_sections.specs.Entries.{keys, key_of, parts, part_size, parts_behind, quoted, next_quoted, value_of, name_value_pair, with_pair, pairs_of, entry_of, with_entry, entry_read, entries_of};

use crate::line::next_line;
use crate::pairs::Pairs;
use crate::word::{is_blank, name_in};
use pw_base::bytes::Bytes;
use pw_base::fault::Refusal;
use pw_base::fault_code::FaultCode;
use pw_base::list::List;
use pw_base::memory::Memory;
use pw_code::entry::EntryLine;
use pw_code::system::MAX_ENTRY_LINES;
use std::alloc::Global;

/// The keys, in the order of their numbers.
const KEYS: [&[u8]; 32] = [
    b"F1", b"F2", b"F3", b"F4", b"F5", b"F6", b"F7", b"F8", b"F9", b"F10", b"F11", b"F12", b"F13",
    b"F14", b"F15", b"F16", b"SF1", b"SF2", b"SF3", b"SF4", b"SF5", b"SF6", b"SF7", b"SF8", b"SF9",
    b"SF10", b"SF11", b"SF12", b"SF13", b"SF14", b"SF15", b"SF16",
];

/// The place of a word among words.
fn place_in(words: &[&[u8]], word: &[u8]) -> Option<usize>
    ensures place { result ≡ position (λ other. bytes_eq other.now word.now) words.now }
    ensures bound { IfSome result (λ place. place < length words.now) }
{
    words.iter().position(|other| *other == word)
}

/// The place of a key.
fn key_place(word: &[u8]) -> Option<usize>
    ensures place { result ≡ position (λ key. bytes_eq key word.now) keys }
    ensures bound { IfSome result (λ place. place < 32) }
{
    place_in(&KEYS, word)
}

/// The number of a key: 1 to 16 for F1 to F16, and 17 to 32 for SF1 to SF16.
fn key_of(word: &[u8]) -> Option<u8>
    ensures { result ≡ key_of word.now }
{
    let place = key_place(word)?;
    Some(place as u8 + 1)
}

/// Whether a byte ends a part.
fn ends_part(in_text: bool, byte: u8) -> bool
    ensures { result ≡ (byte == 32 && not in_text) }
{
    byte == b' ' && !in_text
}

/// Whether what stands behind a byte is in a text.
fn in_text_behind(in_text: bool, byte: u8) -> bool
    ensures { result ≡ (if byte == 34 then not in_text else in_text) }
{
    if byte == b'"' { !in_text } else { in_text }
}

/// How many bytes stand before the first space that stands in no text.
fn part_size(line: &[u8]) -> usize
    ensures value { result ≡ part_size false line.now }
    ensures bound { result ≤ length line.now }
{
    let mut in_text = false;
    let mut size = 0;
    for byte in line {
        if ends_part(in_text, *byte) {
            return size;
        }
        in_text = in_text_behind(in_text, *byte);
        size += 1;
    }
    size
}

/// The first part of a line, and what is behind the space that ends it, if there is one.
fn split_part(line: &[u8]) -> (&[u8], Option<&[u8]>)
    ensures parts { parts false line.now ≡ result.0.now ∷ parts_behind (option_map (λ rest. rest.now) result.1) }
    ensures shorter { IfSome result.1 (λ rest. length rest.now < length line.now) }
{
    let size = part_size(line);
    if size == line.len() {
        (line, None)
    } else {
        (line.split_at(size).0, Some(line.split_at(size + 1).1))
    }
}

/// The next byte of a text behind its first quote, and what is behind it; None at its end.
fn next_quoted(text: &[u8]) -> Option<(u8, &[u8])>
    ensures value { option_map (λ found. (found.0, found.1.now)) result ≡ next_quoted text.now }
    ensures shorter { IfSome result (λ found. length found.1.now < length text.now) }
{
    match text {
        [b'"', b'"', rest @ ..] => Some((b'"', rest)),
        [b'"', ..] => None,
        [_] => None,
        [byte, rest @ ..] => Some((*byte, rest)),
        [] => None,
    }
}

/// The value of a text behind its first quote; None exactly where the text does not end at its last
/// byte.
fn quoted(alloc: Global, text: &[u8]) -> Result<Option<Bytes>, Memory>
    ensures { IfOk result (λ value. value ≡ quoted text.now) }
{
    let mut value = Bytes::new(alloc);
    let mut rest = text;
    while let Some((byte, behind)) = next_quoted(rest) {
        value.push(byte)?;
        rest = behind;
    }
    if rest == b"\"".as_slice() {
        Ok(Some(value))
    } else {
        Ok(None)
    }
}

/// Whether a quote is among the bytes.
fn has_quote(text: &[u8]) -> bool
    ensures { result ≡ list_any (λ byte. byte == 34) text.now }
{
    text.iter().any(|byte| *byte == b'"')
}

/// The value that stands behind a name and `=`.
fn value_of(alloc: Global, text: &[u8]) -> Result<Option<Bytes>, Memory>
    ensures { IfOk result (λ value. value ≡ value_of text.now) }
{
    match text {
        [] => Ok(Some(Bytes::new(alloc))),
        [b'"', rest @ ..] => quoted(alloc, rest),
        _ if has_quote(text) => Ok(None),
        _ => Ok(Some(Bytes::from_slice(alloc, text)?)),
    }
}

/// The place of the first `=`.
fn equals_place(part: &[u8]) -> Option<usize>
    ensures place { result ≡ position (λ byte. byte == 61) part.now }
    ensures bound { IfSome result (λ place. place < length part.now) }
{
    part.iter().position(|byte| *byte == b'=')
}

/// The pair `name=value` that a part is; None exactly where it is none.
fn pair_of(alloc: Global, part: &[u8]) -> Result<Option<(Bytes, Bytes)>, Memory>
    ensures { IfOk result (λ pair. pair ≡ name_value_pair part.now) }
{
    let Some(place) = equals_place(part) else {
        return Ok(None);
    };
    let Some(name) = name_in(alloc, part.split_at(place).0)? else {
        return Ok(None);
    };
    let Some(value) = value_of(alloc, part.split_at(place + 1).1)? else {
        return Ok(None);
    };
    Ok(Some((name, value)))
}

/// The pairs with the one that a part is behind them; None exactly where it may not stand there.
fn with_pair(alloc: Global, pairs: Pairs, part: &[u8]) -> Result<Option<Pairs>, Memory>
    ensures { IfOk result (λ more. more ≡ with_pair pairs (name_value_pair part.now)) }
{
    match pair_of(alloc, part)? {
        Some(pair) => pairs.with(alloc, pair),
        None => Ok(None),
    }
}

/// The pairs of what stands behind a key; None exactly where one may not stand there.
fn pairs_of(alloc: Global, line: Option<&[u8]>) -> Result<Option<List<(Bytes, Bytes)>>, Memory>
    ensures value { IfOk result (λ fields. fields ≡ pairs_of [] (parts_behind (option_map (λ text. text.now) line.entry))) }
    ensures few { IfOk result (λ fields. IfSome fields (λ fields. length fields ≤ most_pairs)) }
{
    let mut pairs = Pairs::new(alloc);
    let mut rest = line;
    while let Some(text) = rest {
        let (part, behind) = split_part(text);
        let Some(more) = with_pair(alloc, pairs, part)? else {
            return Ok(None);
        };
        pairs = more;
        rest = behind;
    }
    Ok(Some(pairs.into_list()))
}

/// The entry that a line is; None exactly where it is none.
fn entry_of(alloc: Global, line: &[u8]) -> Result<Option<EntryLine>, Memory>
    ensures { IfOk result (λ entry. entry ≡ entry_of line.now) }
{
    let (word, rest) = split_part(line);
    let Some(key) = key_of(word) else {
        return Ok(None);
    };
    let Some(fields) = pairs_of(alloc, rest)? else {
        return Ok(None);
    };
    Ok(Some(EntryLine { key, fields }))
}

/// Reads the entry of a line behind the others. An `Err` says nothing of what was read.
fn read_entry(
    alloc: Global,
    number: u32,
    entries: &mut List<EntryLine>,
    line: &[u8],
) -> Result<(), Refusal>
    ensures { Gives (λ done. entries.new) result (entry_read number entries.old line.now) }
{
    let Some(entry) = entry_of(alloc, line)? else {
        return Err(Refusal::At {
            line: number,
            code: FaultCode::BadEntry,
        });
    };
    if entries.len() >= MAX_ENTRY_LINES as usize {
        return Err(Refusal::At {
            line: number,
            code: FaultCode::TooMany,
        });
    }
    entries.push(entry)?;
    Ok(())
}

/// Reads a line: one without a word says nothing. An `Err` says nothing of what was read.
fn read_line(
    alloc: Global,
    number: u32,
    entries: &mut List<EntryLine>,
    line: &[u8],
) -> Result<(), Refusal>
    ensures { Gives (λ done. entries.new) result (line_taken entry_read number entries.old line.now) }
{
    if is_blank(line) {
        Ok(())
    } else {
        read_entry(alloc, number, entries, line)
    }
}

/// The entries of a text whose first line has the number `first_line` (docs/reference/DECK.md).
///
/// It refuses exactly with the first fault, by line and on one line by code: 195 for a line that is no
/// entry, and 196 for the entry above `MAX_ENTRY_LINES`.
pub fn entries(alloc: Global, text: &[u8], first_line: u32) -> Result<List<EntryLine>, Refusal>
    requires { first_line + length text.now ≤ 2 * longest_input + 1 }
    ensures { Gives (λ entries. entries) result (entries_of text.now first_line) }
{
    let mut entries = List::new(alloc);
    let mut number = first_line;
    let mut rest = text;
    while let Some((line, behind)) = next_line(rest) {
        read_line(alloc, number, &mut entries, line)?;
        number += 1;
        rest = behind;
    }
    Ok(entries)
}
