ghost use Rattle.std.specs.Prelude.{◌≡◌, map};
ghost use Rattle.pw_code.specs.Valid.{HasNames, HasFew};
ghost use Rattle.pw_event.specs.Parsing.{line_of, event_of, entry_in, GivesUnlessMemory};
ghost use Rattle.pw_event.specs.Reading.{ReadsEventLine};

use crate::causes::{end, restart};
use crate::event::Event;
use crate::fault::EventFault;
use crate::keyword::Keyword;
use crate::kinds::{
    applied, begin, check, fail, file_line, raise, reply, send, show, taken, takeover,
    terminal_and_number,
};
use crate::system_names::SystemNames;
use crate::words::words;
use pw_code::system::System;
use std::alloc::Global;

/// An entry, by its first word and those behind it.
#[tactic(auto, unfolding(crate::specs::Parsing::line_of))]
fn line_of(names: &SystemNames, keyword: Keyword, words: &[&[u8]]) -> Result<Event, EventFault>
    ensures { result ≡ line_of names.now keyword (map (λ word. word.now) words.now) }
{
    match keyword {
        Keyword::Show => show(names, words),
        Keyword::Key => {
            let (terminal, k) = terminal_and_number(names, words)?;
            Ok(Event::Key { terminal, k })
        }
        Keyword::Check => check(names, words),
        Keyword::Applied => applied(names, words),
        Keyword::Begin => begin(names, words),
        Keyword::Send => send(names, words),
        Keyword::Take => taken(names, words),
        Keyword::File => file_line(names, words),
        Keyword::Reply => reply(names, words),
        Keyword::Again => {
            let (terminal, unit) = terminal_and_number(names, words)?;
            Ok(Event::Again { terminal, unit })
        }
        Keyword::Commit => {
            let (terminal, unit) = terminal_and_number(names, words)?;
            Ok(Event::Commit { terminal, unit })
        }
        Keyword::Back => {
            let (terminal, unit) = terminal_and_number(names, words)?;
            Ok(Event::Back { terminal, unit })
        }
        Keyword::Restart => restart(names, words),
        Keyword::Fail => fail(names, words),
        Keyword::Takeover => takeover(names, words),
        Keyword::Raise => raise(names, words),
        Keyword::End => end(names, words),
        _ => Err(EventFault::Bad),
    }
}

/// An entry, by its words.
#[tactic(auto, unfolding(crate::specs::Parsing::event_of))]
fn event_of(names: &SystemNames, words: &[&[u8]]) -> Result<Event, EventFault>
    ensures { result ≡ event_of names.now (map (λ word. word.now) words.now) }
{
    let [word, words @ ..] = words else {
        return Err(EventFault::Bad);
    };
    line_of(names, Keyword::of(word)?, words)
}

impl SystemNames<'_> {
    /// Reads a line of the log, without its number (docs/reference/DECK.md). It costs about the line's length, whatever the
    /// number of names.
    ///
    /// Under ReadersShare a FILE line has its mode, and under AllExclusive none, where the mode is `Exclusive`. Names
    /// are taken as they stand. It answers `Bad` exactly where the line is outside the grammar, and `Unknown` exactly
    /// where it is in the grammar and a name or the number of a process is not the system's.
    pub fn read_event(&self, alloc: Global, line: &[u8]) -> Result<Event, EventFault>
        ensures reads { ReadsEventLine self.now line.now result }
        ensures gives { GivesUnlessMemory result (entry_in self.now line.now) }
    {
        let _ = &self.system;
        let words = words(alloc, line)?;
        event_of(self, words.as_slice())
    }
}

/// Reads one line of the log, as [`SystemNames::read_event`] does, which is for many lines: here the names of the
/// system are made for this one.
pub fn read_event(alloc: Global, system: &System, line: &[u8]) -> Result<Event, EventFault>
    requires names { HasNames system.now }
    requires few { HasFew system.now }
    ensures reads { ReadsEventLine system.now line.now result }
    ensures gives { GivesUnlessMemory result (entry_in system.now line.now) }
{
    SystemNames::new(alloc, system)?.read_event(alloc, line)
}
