ghost use Rattle.std.specs.Prelude.{◌≡◌, ◌+◌, ◌≤◌, length};
ghost use Rattle.pw_base.specs.First.{Gives};
ghost use Rattle.pw_base.specs.Limits.{longest_input};
ghost use Rattle.pw_deck_tables.specs.Objects.{no_objects, has_file, once, section_admitted, pathcom_section, file_section, entries_section, fail_section, log_section};

use crate::piece::DeckPiece;
use pw_base::bytes::Bytes;
use pw_base::fault::Refusal;
use pw_base::fault_code::FaultCode;
use pw_base::list::List;
use pw_code::entry::EntryLine;
use pw_code::file::FileInfo;
use pw_code::system::MAX_FILES;
use pw_log_lines::fail::count_failures;
use pw_log_lines::log::count_entries;
use pw_pathcom::commands::Commands;
use pw_pathcom::pathcom::pathcom;
use pw_sections::entry::entries;
use pw_sections::record::{printable, records};
use pw_words::names::Names;
use std::alloc::Global;

/// An ENTRIES section: the name of its terminal, its line, and its entries.
#[derive(Debug, Drop)]
pub struct TermEntries {
    pub name: Bytes,
    pub line: u32,
    pub entries: List<EntryLine>,
}

/// What the sections of a deck say so far that are no source. The texts of PATHCOM, FAIL and LOG are
/// kept, since the names in them can be looked up once all sections are read.
#[derive(Drop)]
pub struct Objects<'a> {
    /// The text of the commands.
    pub pathcom: Option<DeckPiece<'a>>,
    pub commands: Commands,
    pub files: List<FileInfo>,
    /// The names of the terminals that have an ENTRIES section.
    pub entered: Names,
    /// The ENTRIES sections in their order.
    pub entries: List<TermEntries>,
    /// The text of the failure lines.
    pub fail: Option<DeckPiece<'a>>,
    /// The text of the log.
    pub log: Option<DeckPiece<'a>>,
}

/// Refuses a section line whose section stands already.
pub fn once(line: u32, stands: bool) -> Result<(), Refusal>
    ensures { Gives (λ done. done) result (once line stands) }
{
    if stands {
        Err(Refusal::At {
            line,
            code: FaultCode::SectionTwice,
        })
    } else {
        Ok(())
    }
}

/// Refuses a section line whose section stands already, or where as many of its kind stand as may be.
pub fn one_more(line: u32, stands: bool, full: bool) -> Result<(), Refusal>
    ensures { Gives (λ done. done) result (section_admitted line stands full) }
{
    if stands {
        Err(Refusal::At {
            line,
            code: FaultCode::SectionTwice,
        })
    } else if full {
        Err(Refusal::At {
            line,
            code: FaultCode::TooMany,
        })
    } else {
        Ok(())
    }
}

impl<'a> Objects<'a> {
    /// Nothing is said. It takes no memory.
    pub fn new(alloc: Global) -> Objects<'a>
        ensures { result ≡ no_objects }
    {
        Objects {
            pathcom: None,
            commands: Commands {
                tcps: List::new(alloc),
                classes: List::new(alloc),
                terminals: List::new(alloc),
            },
            files: List::new(alloc),
            entered: Names::new(alloc),
            entries: List::new(alloc),
            fail: None,
            log: None,
        }
    }

    /// Whether a file of this name was read.
    fn has_file(&self, name: &[u8]) -> bool
        ensures { result ≡ has_file self.now name.now }
    {
        let files = self.files.as_slice();
        files.iter().any(|file| file.name.as_slice() == name)
    }

    /// Reads the commands of a section: its text, behind its section line, which has the number `line`.
    /// An `Err` says nothing of what was read; so below.
    ///
    /// It refuses exactly with the first fault of the first pass that has one: 193 for a second such
    /// section; 101; then 181, 182 and 184.
    pub fn read_pathcom(&mut self, alloc: Global, line: u32, text: &'a [u8]) -> Result<(), Refusal>
        requires { (1 ≤ line) × (line + 1 + length text.now ≤ longest_input + 1) }
        ensures { Gives (λ done. self.new) result (pathcom_section self.old line text.now) }
    {
        once(line, self.pathcom.is_some())?;
        printable(text, line + 1)?;
        self.commands = pathcom(alloc, text, line + 1)?;
        self.pathcom = Some(DeckPiece {
            bytes: text,
            first_line: line + 1,
        });
        Ok(())
    }

    /// Reads the records of a file, whose keys have this length. It refuses exactly with 193 for a name
    /// that a file has, else 196 where there are `MAX_FILES`; then with 101; then with 194.
    pub fn read_file(
        &mut self,
        alloc: Global,
        line: u32,
        text: &[u8],
        name: Bytes,
        key: u16,
    ) -> Result<(), Refusal>
        requires { (1 ≤ line) × (line + 1 + length text.now ≤ longest_input + 1) }
        ensures { Gives (λ done. self.new) result (file_section self.old line text.now name key) }
    {
        let stands = self.has_file(name.as_slice());
        one_more(line, stands, self.files.len() >= MAX_FILES as usize)?;
        printable(text, line + 1)?;
        let records = records(alloc, u32::from(key), text, line + 1)?;
        self.files.push(FileInfo { name, key, records })?;
        Ok(())
    }

    /// Reads the entries of a terminal. It refuses exactly with 193 for a second section of a terminal;
    /// then with 101; then with the first of 195 and 196.
    pub fn read_entries(
        &mut self,
        alloc: Global,
        line: u32,
        text: &[u8],
        name: Bytes,
    ) -> Result<(), Refusal>
        requires { (1 ≤ line) × (line + 1 + length text.now ≤ longest_input + 1) }
        ensures { Gives (λ done. self.new) result (entries_section self.old line text.now name) }
    {
        let stands = self.entered.put(name.copy(alloc)?.into_vec())?;
        once(line, stands)?;
        printable(text, line + 1)?;
        let entries = entries(alloc, text, line + 1)?;
        self.entries.push(TermEntries {
            name,
            line,
            entries,
        })?;
        Ok(())
    }

    /// Reads the failure lines, whose names are not looked up yet. It refuses exactly with 193 for a
    /// second such section; then with 101; then with the first of 172 and 196.
    pub fn read_fail(&mut self, alloc: Global, line: u32, text: &'a [u8]) -> Result<(), Refusal>
        requires { (1 ≤ line) × (line + 1 + length text.now ≤ longest_input + 1) }
        ensures { Gives (λ done. self.new) result (fail_section self.old line text.now) }
    {
        once(line, self.fail.is_some())?;
        printable(text, line + 1)?;
        let _count = count_failures(alloc, text, line + 1)?;
        self.fail = Some(DeckPiece {
            bytes: text,
            first_line: line + 1,
        });
        Ok(())
    }

    /// Reads the log, whose names are not looked up yet. It refuses exactly with 193 for a second such
    /// section; then with 101; then with the first of 171 and 196.
    pub fn read_log(&mut self, alloc: Global, line: u32, text: &'a [u8]) -> Result<(), Refusal>
        requires { (1 ≤ line) × (line + 1 + length text.now ≤ longest_input + 1) }
        ensures { Gives (λ done. self.new) result (log_section self.old line text.now) }
    {
        once(line, self.log.is_some())?;
        printable(text, line + 1)?;
        let _count = count_entries(alloc, text, line + 1)?;
        self.log = Some(DeckPiece {
            bytes: text,
            first_line: line + 1,
        });
        Ok(())
    }
}
