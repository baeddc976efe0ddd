ghost use Rattle.std.specs.Prelude.{◌≡◌, ◌∷◌, [], ℕ, List, length, All, IfOk, OnOk};
ghost use Rattle.pw_base.specs.First.{least, Gives};
ghost use Rattle.pw_text.specs.declared.token.Token.{Token as TokenValue};
ghost use Rattle.pw_code.specs.Fields.{IsTable};
ghost use Rattle.pw_data.specs.Layouts.{Laid};
ghost use Rattle.pw_divisions.specs.Entries.{division_entries_of};
ghost use Rattle.pw_screen.specs.Entries.{at_first, screen_entry_of, after_screen_entry, IsSoundEntry};
ghost use Rattle.pw_screen.specs.Screens.{fault_of, screens_of};
ghost use Rattle.pw_screen.specs.Built.{before_of, AreSound, outcome};

use crate::build::ScreenBuilder;
use crate::entries::{begins_screen, read_field, read_screen};
use crate::entry::ScreenEntry;
use crate::reading::ScreenReading;
use crate::taken::ScreensTaken;
use pw_base::fault::{Fault, Refusal, better};
use pw_base::memory::Memory;
use pw_code::field::ScreenTable;
use pw_data::entries::line_of;
use pw_data::layout::Layout;
use pw_divisions::entries::take_entry;
use pw_text::cursor::Cursor;
use pw_text::token::Token;
use pw_words::names::Names;
use std::alloc::Global;

/// The first of the fault that is known and of that of an entry, where it is refused.
fn noted(known: Option<Fault>, line: u32, entry: &ScreenEntry) -> Option<Fault>
    ensures { result ≡ least known (fault_of line entry.now) }
{
    match entry {
        ScreenEntry::Refused(code) => better(known, Fault { line, code: *code }),
        _ => known,
    }
}

impl ScreensTaken {
    /// Nothing is taken.
    fn new(alloc: Global) -> ScreensTaken
        ensures { (laid : Laid) → before_of laid result ≡ at_first laid }
    {
        ScreensTaken {
            begun: false,
            names: Names::new(alloc),
            fields: Names::new(alloc),
            used: None,
        }
    }

    /// Reads an entry behind those so far.
    fn read(
        &mut self,
        alloc: Global,
        layout: &Layout,
        part: &Cursor<'_>,
    ) -> Result<ScreenEntry, Memory>
        ensures entry { IfOk result (λ found.
            found ≡ screen_entry_of layout.now (before_of layout.now self.old) part.now) }
        ensures after { IfOk result (λ found.
            before_of layout.now self.new ≡ after_screen_entry (before_of layout.now self.old) part.now found) }
        ensures sound { IfOk result (IsSoundEntry (length layout.now.storage)) }
    {
        if begins_screen(part) {
            let found = read_screen(alloc, layout, part, &mut self.names)?;
            self.begun = true;
            self.fields = Names::new(alloc);
            self.used = None;
            Ok(found)
        } else {
            read_field(
                alloc,
                layout,
                part,
                self.begun,
                &mut self.fields,
                &mut self.used,
            )
        }
    }
}

impl ScreenReading {
    /// No entry was read. It takes no memory.
    fn new(alloc: Global) -> ScreenReading
        ensures outcome { (text : List ℕ) (tokens : List TokenValue) (laid : Laid)
            → outcome text laid result (division_entries_of tokens) ≡ screens_of text tokens laid }
        ensures sound { (storage : ℕ) → AreSound storage result.build }
    {
        ScreenReading {
            known: None,
            taken: ScreensTaken::new(alloc),
            build: ScreenBuilder::new(alloc),
        }
    }

    /// Reads the next entry.
    fn put(&mut self, alloc: Global, layout: &Layout, part: &Cursor<'_>) -> Result<(), Memory>
        ensures outcome { OnOk result ((parts : List (List TokenValue))
            → outcome part.now.text layout.now self.new parts
            ≡ outcome part.now.text layout.now self.old (part.now.tokens ∷ parts)) }
        ensures sound { OnOk result (AreSound (length layout.now.storage) self.old.build
            → AreSound (length layout.now.storage) self.new.build) }
    {
        let entry = self.taken.read(alloc, layout, part)?;
        self.known = noted(self.known, line_of(part.tokens()), &entry);
        self.build.put(alloc, entry)?;
        Ok(())
    }

    /// The screens, or the first fault, where no entry is left.
    fn finish(self) -> Result<Vec<ScreenTable>, Refusal>
        ensures outcome { (text : List ℕ) (laid : Laid)
            → Gives (λ tables. tables.items) result (outcome text laid self []) }
        ensures sound { (storage : ℕ) → AreSound storage self.build
            → IfOk result (λ tables. All (IsTable storage) tables.items) }
    {
        match self.known {
            Some(fault) => Err(fault.into()),
            None => Ok(self.build.finish()?),
        }
    }
}

/// The screens of a program, in their order. The tokens are those of SCREEN SECTION of the text, behind
/// its heading, and the items are those of the layout. Names are in upper case, and each screen is one
/// of a program whose storage is the layout's.
///
/// It refuses exactly with the first fault, by line and on one line by code, where a fault stands at
/// the line of its entry's first token: 111 for a picture that is none; 122 for a screen's name that an
/// item or an earlier screen has, for a field's name that an earlier field of its screen has, and for a
/// table word as a name; 123 for an item that there is not; 141 for a cell outside rows 1 to 23 or
/// columns 1 to 80; 143 for an entry of another form, for clauses that do not go together and for a
/// field that may not stand where it is; and 142 for a field with a cell of an earlier one of its
/// screen, where neither has another refusal. The rules stand in `docs/reference/LANGUAGE.md`.
pub fn screens(
    alloc: Global,
    text: &[u8],
    tokens: &[Token],
    layout: &Layout,
) -> Result<Vec<ScreenTable>, Refusal>
    ensures screens { Gives (λ tables. tables.items) result
        (screens_of text.now tokens.now layout.now) }
    ensures sound { IfOk result (λ tables. All (IsTable (length layout.now.storage)) tables.items) }
{
    let mut reading = ScreenReading::new(alloc);
    let mut cursor = Cursor::new(text, tokens);
    while !cursor.is_empty() {
        let part = take_entry(&mut cursor);
        reading.put(alloc, layout, &part)?;
    }
    reading.finish()
}
