ghost use Rattle.std.specs.Prelude.{◌≡◌, ◌++◌, ◌<◌, IfOk, OnOk, None, length, option_to_list};
ghost use Rattle.std.specs.List.{list_any};
ghost use Rattle.pw_base.specs.declared.fault_code.FaultCode.TheVariants.{BadPicture, BadDataEntry, NameTwice};
ghost use Rattle.pw_base.specs.First.{least};
ghost use Rattle.pw_data.specs.Parts.{part_of, parts_from, parts_of};
ghost use Rattle.pw_data.specs.Entries.{picture_at, is_bad_picture, has_table_name, line_of, data_entry_of, data_fault_if, part_faults, faults_of_parts, data_entries_of};

use crate::clauses::DataClauses;
use crate::entry::{Entry, entry_of, picture_at, proper_name};
use crate::parts::{is_heading, take_entry, take_heading};
use crate::reading::EntryParts;
use crate::words::is_table_word;
use pw_base::fault::{Fault, noted};
use pw_base::fault_code::FaultCode;
use pw_base::memory::Memory;
use pw_picture::picture::Picture;
use pw_text::cursor::Cursor;
use pw_text::token::{Token, TokenKind};
use std::alloc::Global;

/// Whether a token stands for a picture and is none. The picture of the entry's clause is known.
fn is_bad_picture(
    alloc: Global,
    text: &[u8],
    token: Token,
    clause: Option<Token>,
    picture: &Option<Picture>,
) -> Result<bool, Memory>
    requires { picture.now ≡ picture_at text.now clause }
    ensures { IfOk result (λ bad. bad ≡ is_bad_picture text.now token) }
{
    if !token.kind.is(TokenKind::Picture) {
        return Ok(false);
    }
    if clause == Some(token) {
        return Ok(picture.is_none());
    }
    Ok(picture_at(alloc, text, Some(token))?.is_none())
}

/// Whether one of the tokens stands for a picture and is none. The picture of the entry's clause is
/// known, so that no other is read but those that stand where no picture may.
fn has_bad_picture(
    alloc: Global,
    part: &Cursor<'_>,
    clause: Option<Token>,
    picture: &Option<Picture>,
) -> Result<bool, Memory>
    requires { picture.now ≡ picture_at part.now.text clause }
    ensures { IfOk result (λ bad. bad ≡ list_any (is_bad_picture part.now.text) part.now.tokens) }
{
    for token in part.tokens() {
        if is_bad_picture(alloc, part.text(), *token, clause, picture)? {
            return Ok(true);
        }
    }
    Ok(false)
}

/// Whether a name is a table word.
fn has_table_name(server: bool, text: &[u8], name: Option<Token>) -> bool
    ensures { result ≡ has_table_name server text.now name }
{
    match name {
        Some(token) => is_table_word(server, token.spelling(text)),
        None => false,
    }
}

/// The first token's line, 0 where there is none. A refused entry has its fault there (docs/reference/LANGUAGE.md).
pub fn line_of(tokens: &[Token]) -> u32
    ensures { result ≡ line_of tokens.now }
{
    match tokens {
        [token, ..] => token.line,
        [] => 0,
    }
}

/// Which faults an entry has by itself.
#[derive(Clone, Copy)]
struct OwnFaults {
    /// A picture that is none.
    picture: bool,
    /// Another form, or a clause that may not stand there.
    entry: bool,
    /// A table word as a name.
    name: bool,
}

impl OwnFaults {
    /// The first of the fault that is known and of these on a line.
    fn noted(self, known: Option<Fault>, line: u32) -> Option<Fault>
        ensures { result ≡ least known (data_fault_if self.picture line BadPicture
            ++ (data_fault_if self.entry line BadDataEntry ++ data_fault_if self.name line NameTwice)) }
    {
        let known = noted(
            known,
            self.picture,
            Fault {
                line,
                code: FaultCode::BadPicture,
            },
        );
        let known = noted(
            known,
            self.entry,
            Fault {
                line,
                code: FaultCode::BadDataEntry,
            },
        );
        noted(
            known,
            self.name,
            Fault {
                line,
                code: FaultCode::NameTwice,
            },
        )
    }
}

/// Puts the entry behind the others.
fn push_entry(entries: &mut Vec<Entry>, entry: Option<Entry>) -> Result<(), Memory>
    ensures { OnOk result (entries.new.items ≡ entries.old.items ++ option_to_list entry) }
{
    if let Some(entry) = entry {
        entries.push(entry)?;
    }
    Ok(())
}

/// What is read so far of the data sections of a server or of a requester.
#[derive(Drop)]
pub struct Found {
    pub server: bool,
    /// Whether reading stands in LINKAGE.
    pub linked: bool,
    /// The entries that have a level.
    pub entries: Vec<Entry>,
    /// The first fault.
    pub known: Option<Fault>,
}

/// Reads the tokens of one entry. It puts the entry behind the others, where it has a level, and notes
/// the faults of the entry by itself: 111 for a picture that is none, 121 for another form or a clause
/// that may not stand there, 122 for a table word as a name.
fn read_part(alloc: Global, part: &Cursor<'_>, found: &mut Found) -> Result<(), Memory>
    ensures entries { OnOk result (found.new.entries.items ≡ found.old.entries.items
        ++ option_to_list (data_entry_of found.old.server part.now.text (part_of found.old.linked part.now.tokens))) }
    ensures faults { OnOk result (found.new.known
        ≡ least found.old.known (part_faults found.old.server part.now.text (part_of found.old.linked part.now.tokens))) }
    ensures server { found.new.server ≡ found.old.server }
    ensures linked { found.new.linked ≡ found.old.linked }
{
    let text = part.text();
    let reading = EntryParts::new(found.server, part);
    let line = line_of(part.tokens());
    let clauses = reading.clauses.unwrap_or(DataClauses::none());
    let picture = picture_at(alloc, text, clauses.picture)?;
    let (entry, bad) = entry_of(alloc, text, found.linked, line, reading, &picture)?;
    push_entry(&mut found.entries, entry)?;
    let own = OwnFaults {
        picture: has_bad_picture(alloc, part, clauses.picture, &picture)?,
        entry: !reading.has_form() || bad,
        name: has_table_name(found.server, text, proper_name(text, reading.name)),
    };
    found.known = own.noted(found.known, line);
    Ok(())
}

/// Reads the heading or the entry in front.
fn read_next(alloc: Global, cursor: &mut Cursor<'_>, found: &mut Found) -> Result<(), Memory>
    requires { 0 < length cursor.old.tokens }
    ensures text { cursor.new.text ≡ cursor.old.text }
    ensures shorter { OnOk result (length cursor.new.tokens < length cursor.old.tokens) }
    ensures server { found.new.server ≡ found.old.server }
    ensures entries { OnOk result (found.new.entries.items
        ++ data_entries_of found.old.server cursor.old.text (parts_from cursor.old.text found.new.linked 0 cursor.new.tokens)
        ≡ found.old.entries.items
        ++ data_entries_of found.old.server cursor.old.text (parts_from cursor.old.text found.old.linked 0 cursor.old.tokens)) }
    ensures faults { OnOk result (least found.new.known
        (faults_of_parts found.old.server cursor.old.text (parts_from cursor.old.text found.new.linked 0 cursor.new.tokens))
        ≡ least found.old.known
        (faults_of_parts found.old.server cursor.old.text (parts_from cursor.old.text found.old.linked 0 cursor.old.tokens))) }
{
    if is_heading(cursor) {
        found.linked = take_heading(cursor);
        return Ok(());
    }
    let part = take_entry(cursor);
    read_part(alloc, &part, found)?;
    Ok(())
}

/// The entries of the tokens that have a level, and the first of the faults that are read off each
/// entry by itself.
pub fn read_entries(
    alloc: Global,
    server: bool,
    text: &[u8],
    tokens: &[Token],
) -> Result<(Vec<Entry>, Option<Fault>), Memory>
    ensures entries { IfOk result (λ read. read.0.items ≡ data_entries_of server text.now (parts_of text.now tokens.now)) }
    ensures faults { IfOk result (λ read.
        read.1 ≡ least None (faults_of_parts server text.now (parts_of text.now tokens.now))) }
{
    let mut cursor = Cursor::new(text, tokens);
    let mut found = Found {
        server,
        linked: false,
        entries: Vec::new(alloc),
        known: None,
    };
    while !cursor.is_empty() {
        read_next(alloc, &mut cursor, &mut found)?;
    }
    let Found { entries, known, .. } = found;
    Ok((entries, known))
}
