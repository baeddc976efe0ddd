ghost use Rattle.std.specs.Prelude.{◌≡◌, IfOk, IfSome, option_map, option_and_then, unwrap_or};
ghost use Rattle.pw_picture.specs.Grammar.{IsPicture};
ghost use Rattle.pw_data.specs.Clauses.{no_clauses};
ghost use Rattle.pw_data.specs.Entries.{picture_at, proper_name, count_at, size_at, entry_with, begins_item, has_picture, has_value, has_occurs, has_no_kind, is_refused, is_bad_value, is_bad_occurs, has_bad_clause, is_bad_entry, fault};

use crate::clauses::DataClauses;
use crate::item::{ItemKind, kind_at};
use crate::literal::{Literal, holds, literal_of, whole_number};
use crate::reading::EntryParts;
use pw_base::fault::Fault;
use pw_base::fault_code::FaultCode;
use pw_base::memory::Memory;
use pw_picture::fault::PictureFault;
use pw_picture::grammar::picture;
use pw_picture::picture::Picture;
use pw_text::token::Token;
use std::alloc::Global;

/// An entry that has a level, 1 to 49 or 77.
#[derive(Clone, Copy)]
pub struct Entry {
    /// The line of its first token.
    pub line: u32,
    pub level: u8,
    /// Whether it stands in LINKAGE.
    pub linked: bool,
    /// None for FILLER.
    pub name: Option<Token>,
    /// None where the entry is of another form.
    pub clauses: DataClauses,
    /// What the item holds by its picture, None without one and for one that is Edited.
    pub kind: Option<ItemKind>,
    /// The size of the item that its picture says, 0 without one.
    pub size: u16,
    /// The number of its OCCURS, where it is 1 to 1,000.
    pub occurs: Option<u16>,
}

impl Entry {
    /// Whether it begins an item: 01 and 77 do.
    pub fn begins_item(self) -> bool
        ensures { result ≡ begins_item self }
    {
        self.level == 1 || self.level == 77
    }

    /// Whether it has a picture.
    pub fn has_picture(self) -> bool
        ensures { result ≡ has_picture self }
    {
        self.clauses.picture.is_some()
    }

    /// Whether it has a VALUE.
    pub fn has_value(self) -> bool
        ensures { result ≡ has_value self }
    {
        self.clauses.value.is_some()
    }

    /// Whether it has an OCCURS.
    pub fn has_occurs(self) -> bool
        ensures { result ≡ has_occurs self }
    {
        self.clauses.occurs.is_some()
    }

    /// Whether it has an OCCURS at level 01 or 77, or with a number outside 1 to 1,000.
    fn is_bad_occurs(self) -> bool
        ensures { result ≡ is_bad_occurs self }
    {
        self.has_occurs() && (self.begins_item() || self.occurs.is_none())
    }

    /// Whether there is a picture, but it is no Text and no Number.
    fn has_no_kind(self, text: &[u8], picture: &Option<Picture>) -> bool
        requires { picture.now ≡ picture_at text.now self.clauses.picture }
        ensures { result ≡ has_no_kind text.now self }
    {
        self.has_picture() && kind_at(picture).is_none()
    }

    /// A fault of the entry.
    pub fn fault(self, code: FaultCode) -> Fault
        ensures { result ≡ fault self.line code }
    {
        Fault {
            line: self.line,
            code,
        }
    }
}

/// The picture that a token is (docs/reference/LANGUAGE.md). It is None without a token, and for one that is no
/// picture.
pub fn picture_at(
    alloc: Global,
    text: &[u8],
    token: Option<Token>,
) -> Result<Option<Picture>, Memory>
    ensures picture { IfOk result (λ picture. picture ≡ picture_at text.now token) }
    ensures valid { IfOk result (λ picture. IfSome picture (λ p. IsPicture p)) }
{
    let Some(token) = token else {
        return Ok(None);
    };
    match picture(alloc, token.spelling(text)) {
        Ok(picture) => Ok(Some(picture)),
        Err(PictureFault::Bad) => Ok(None),
        Err(PictureFault::Memory) => Err(Memory),
    }
}

/// A name other than FILLER.
pub fn proper_name(text: &[u8], name: Option<Token>) -> Option<Token>
    ensures { result ≡ option_and_then (proper_name text.now) name }
{
    match name {
        Some(token) if !token.is_the_word(text, b"FILLER") => Some(token),
        _ => None,
    }
}

/// The number of an OCCURS, where it is 1 to 1,000.
fn count_at(text: &[u8], token: Option<Token>) -> Option<u16>
    ensures { result ≡ count_at text.now token }
{
    let count = whole_number(token?.spelling(text))?;
    if count >= 1 && count <= 1000 {
        Some(count)
    } else {
        None
    }
}

/// The size of an item of a picture, and 0 without one.
fn size_at(picture: &Option<Picture>) -> u16
    requires { IfSome picture.now (λ p. IsPicture p) }
    ensures { result ≡ size_at picture.now }
{
    match picture {
        Some(picture) => picture.size(),
        None => 0,
    }
}

/// Whether an item of the picture cannot hold the literal.
fn is_refused(picture: &Option<Picture>, literal: &Option<Literal>) -> bool
    requires { IfSome picture.now (λ p. IsPicture p) }
    ensures { result ≡ is_refused picture.now literal.now }
{
    match (picture, literal) {
        (Some(picture), Some(literal)) => !holds(picture, literal),
        (Some(_), None) => true,
        (None, _) => false,
    }
}

/// Whether there is a VALUE that may not stand in the entry: it is in LINKAGE, or the picture cannot
/// hold it.
fn is_bad_value(
    alloc: Global,
    text: &[u8],
    entry: Entry,
    picture: &Option<Picture>,
) -> Result<bool, Memory>
    requires picture { picture.now ≡ picture_at text.now entry.clauses.picture }
    requires valid { IfSome picture.now (λ p. IsPicture p) }
    ensures { IfOk result (λ bad. bad ≡ is_bad_value text.now entry entry.clauses.value) }
{
    let Some(token) = entry.clauses.value else {
        return Ok(false);
    };
    if entry.linked {
        return Ok(true);
    }
    let literal = literal_of(alloc, text, token)?;
    Ok(is_refused(picture, &literal))
}

/// Whether there is a picture that is Edited, or an OCCURS or VALUE that may not stand in the entry.
fn has_bad_clause(
    alloc: Global,
    text: &[u8],
    entry: Entry,
    picture: &Option<Picture>,
) -> Result<bool, Memory>
    requires picture { picture.now ≡ picture_at text.now entry.clauses.picture }
    requires valid { IfSome picture.now (λ p. IsPicture p) }
    ensures { IfOk result (λ bad. bad ≡ has_bad_clause text.now entry) }
{
    if entry.has_no_kind(text, picture) || entry.is_bad_occurs() {
        return Ok(true);
    }
    is_bad_value(alloc, text, entry, picture)
}

/// The entry of these parts and of the picture that they name, where they have a level, and whether a
/// clause may not stand in it.
pub fn entry_of(
    alloc: Global,
    text: &[u8],
    linked: bool,
    line: u32,
    reading: EntryParts,
    picture: &Option<Picture>,
) -> Result<(Option<Entry>, bool), Memory>
    requires picture { picture.now ≡ picture_at text.now (unwrap_or reading.clauses no_clauses).picture }
    requires valid { IfSome picture.now (λ p. IsPicture p) }
    ensures entry { IfOk result (λ read. read.0 ≡ option_map (entry_with text.now linked line reading) reading.level) }
    ensures bad { IfOk result (λ read. read.1 ≡ is_bad_entry text.now read.0) }
{
    let Some(level) = reading.level else {
        return Ok((None, false));
    };
    let clauses = reading.clauses.unwrap_or(DataClauses::none());
    let entry = Entry {
        line,
        level,
        linked,
        name: proper_name(text, reading.name),
        clauses,
        kind: kind_at(picture),
        size: size_at(picture),
        occurs: count_at(text, clauses.occurs),
    };
    let bad = has_bad_clause(alloc, text, entry, picture)?;
    Ok((Some(entry), bad))
}
