ghost use Rattle.std.specs.Prelude.{◌≡◌, IfOk};
ghost use Rattle.std.specs.Option.{option_map};
ghost use Rattle.pw_sections.specs.Words.{words};
ghost use Rattle.pw_sections.specs.Headings.{plain_heading, named_heading, keyed_heading, file_heading, heading_by, heading_of};

use crate::word::{is_blank, name_in, next_word, number_in};
use pw_base::bytes::Bytes;
use pw_base::memory::Memory;
use pw_words::table::is_same_word;
use std::alloc::Global;

/// What a section line says. Names are in upper case, and the length of a file's keys is from 1 to
/// 255.
#[derive(Debug, Drop)]
pub enum Heading {
    Pathcom,
    Requester(Bytes),
    Server(Bytes),
    File(Bytes, u16),
    Entries(Bytes),
    Fail,
    Log,
    End,
}

/// A section line of one word.
fn plain_heading(word: &[u8]) -> Option<Heading>
    ensures { result ≡ plain_heading word.now }
{
    if is_same_word(word, b"?PATHCOM") {
        Some(Heading::Pathcom)
    } else if is_same_word(word, b"?FAIL") {
        Some(Heading::Fail)
    } else if is_same_word(word, b"?LOG") {
        Some(Heading::Log)
    } else if is_same_word(word, b"?END") {
        Some(Heading::End)
    } else {
        None
    }
}

/// A section line of a word and a name.
fn named_heading(word: &[u8], name: Option<Bytes>) -> Option<Heading>
    ensures { result ≡ named_heading word.now name }
{
    let name = name?;
    if is_same_word(word, b"?SCREEN-COBOL") {
        Some(Heading::Requester(name))
    } else if is_same_word(word, b"?SERVER") {
        Some(Heading::Server(name))
    } else if is_same_word(word, b"?ENTRIES") {
        Some(Heading::Entries(name))
    } else {
        None
    }
}

/// A section line of a file, by its name and its key's length.
fn file_heading(is_file: bool, name: Option<Bytes>, key: Option<u32>) -> Option<Heading>
    ensures { result ≡ file_heading is_file name key }
{
    match (is_file, name, key) {
        (true, Some(name), Some(key)) if key >= 1 && key <= 255 => Some(Heading::File(
            name, key as u16,
        )),
        _ => None,
    }
}

/// What a section line says; None exactly where it says nothing.
pub fn heading_of(alloc: Global, line: &[u8]) -> Result<Option<Heading>, Memory>
    ensures { IfOk result (λ heading. heading ≡ heading_of line.now) }
{
    let Some((word, rest)) = next_word(line) else {
        return Ok(None);
    };
    let Some((name, rest)) = next_word(rest) else {
        return Ok(plain_heading(word));
    };
    let Some((key, rest)) = next_word(rest) else {
        return Ok(named_heading(word, name_in(alloc, name)?));
    };
    let Some((number, rest)) = next_word(rest) else {
        return Ok(None);
    };
    if !is_blank(rest) {
        return Ok(None);
    }
    let is_file = is_same_word(word, b"?FILE") && is_same_word(key, b"KEY");
    Ok(file_heading(is_file, name_in(alloc, name)?, number_in(number)))
}
