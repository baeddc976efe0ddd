ghost use Rattle.std.specs.Prelude.{◌≡◌, map, IfOk};
ghost use Rattle.std.specs.Str.{str_to_ascii_uppercase};
ghost use Rattle.pw_code.specs.Valid.{HasNames, HasFew};
ghost use Rattle.pw_event.specs.Fails.{ReadsFail};
ghost use Rattle.pw_event.specs.Parsing.{fail_process, tcp_line, fail_class, class_line, fail_line_of, fail_of, failure_in, GivesUnlessMemory};

use crate::fault::EventFault;
use crate::fields::{after, member, named, number};
use crate::keyword::Keyword;
use crate::script::{FailLine, MAX_AFTER};
use crate::system_names::SystemNames;
use crate::words::words;
use pw_code::system::{MAX_PROCESSES, System};
use std::alloc::{AllocError, Global};

/// A name in upper case.
fn upper(alloc: Global, name: &[u8]) -> Result<Vec<u8>, AllocError>
    ensures { IfOk result (λ upper. upper.items ≡ str_to_ascii_uppercase name.now) }
{
    name.iter()
        .map(|byte| byte.to_ascii_uppercase())
        .collect(alloc)
}

/// The number of a process: 1 to `MAX_PROCESSES`.
#[tactic(auto, unfolding(crate::specs::Parsing::fail_process))]
fn fail_process(word: &[u8]) -> Result<u32, EventFault>
    ensures { result ≡ fail_process word.now }
{
    let process = number(word, MAX_PROCESSES)?;
    if process == 0 {
        Err(EventFault::Bad)
    } else {
        Ok(process)
    }
}

/// TCP p PRIMARY AFTER n or TCP p BACKUP AFTER n, behind its first word.
#[tactic(auto, unfolding(crate::specs::Parsing::tcp_line))]
fn tcp_line(alloc: Global, names: &SystemNames, words: &[&[u8]]) -> Result<FailLine, EventFault>
    ensures { GivesUnlessMemory result (tcp_line names.now (map (λ word. word.now) words.now)) }
{
    let [name, primary, after_word, count] = words else {
        return Err(EventFault::Bad);
    };
    named(name)?;
    let primary = member(primary)?;
    after(after_word)?;
    let after = number(count, MAX_AFTER)?;
    let name = upper(alloc, name)?;
    let tcp = names.pair_among(name.as_slice())?;
    Ok(FailLine::Tcp {
        tcp,
        primary,
        after,
    })
}

/// A class of a failure line with one of its processes, by the name of the class in upper case.
#[tactic(auto, unfolding(crate::specs::Parsing::fail_class))]
fn fail_class(
    names: &SystemNames,
    name: &[u8],
    process: u32,
    after: u32,
) -> Result<FailLine, EventFault>
    ensures { result ≡ fail_class names.now name.now process after }
{
    let class = names.class_among(name)?;
    if process <= names.processes(class) {
        Ok(FailLine::Server {
            class,
            process,
            after,
        })
    } else {
        Err(EventFault::Unknown)
    }
}

/// SERVER c i AFTER n, behind its first word.
#[tactic(auto, unfolding(crate::specs::Parsing::class_line))]
fn class_line(alloc: Global, names: &SystemNames, words: &[&[u8]]) -> Result<FailLine, EventFault>
    ensures { GivesUnlessMemory result (class_line names.now (map (λ word. word.now) words.now)) }
{
    let [name, process, after_word, count] = words else {
        return Err(EventFault::Bad);
    };
    named(name)?;
    let process = fail_process(process)?;
    after(after_word)?;
    let after = number(count, MAX_AFTER)?;
    let name = upper(alloc, name)?;
    fail_class(names, name.as_slice(), process, after)
}

/// A failure line, by its first word and those behind it.
#[tactic(auto, unfolding(crate::specs::Parsing::fail_line_of))]
fn fail_line_of(
    alloc: Global,
    names: &SystemNames,
    keyword: Keyword,
    words: &[&[u8]],
) -> Result<FailLine, EventFault>
    ensures { GivesUnlessMemory result (fail_line_of names.now keyword (map (λ word. word.now) words.now)) }
{
    match keyword {
        Keyword::Tcp => tcp_line(alloc, names, words),
        Keyword::Server => class_line(alloc, names, words),
        _ => Err(EventFault::Bad),
    }
}

/// A failure line, by its words.
#[tactic(auto, unfolding(crate::specs::Parsing::fail_of))]
fn fail_of(alloc: Global, names: &SystemNames, words: &[&[u8]]) -> Result<FailLine, EventFault>
    ensures { GivesUnlessMemory result (fail_of names.now (map (λ word. word.now) words.now)) }
{
    let [word, words @ ..] = words else {
        return Err(EventFault::Bad);
    };
    fail_line_of(alloc, names, Keyword::of(word)?, words)
}

impl SystemNames<'_> {
    /// Reads a failure line: TCP p PRIMARY AFTER n, TCP p BACKUP AFTER n or SERVER c i AFTER n, with n from 0 to
    /// `MAX_AFTER` and i from 1 to `MAX_PROCESSES` (docs/reference/DECK.md).
    ///
    /// The name may stand in either case. It answers `Bad` exactly where the line is outside the grammar, and
    /// `Unknown` exactly where it is in the grammar and the name or the number of the process is not the system's.
    pub fn read_fail(&self, alloc: Global, line: &[u8]) -> Result<FailLine, EventFault>
        ensures reads { ReadsFail self.now line.now result }
        ensures gives { GivesUnlessMemory result (failure_in self.now line.now) }
    {
        let _ = &self.system;
        let words = words(alloc, line)?;
        fail_of(alloc, self, words.as_slice())
    }
}

/// Reads one failure line, as [`SystemNames::read_fail`] does, which is for many lines: here the names of the system
/// are made for this one.
pub fn read_fail(alloc: Global, system: &System, line: &[u8]) -> Result<FailLine, EventFault>
    requires names { HasNames system.now }
    requires few { HasFew system.now }
    ensures reads { ReadsFail system.now line.now result }
    ensures gives { GivesUnlessMemory result (failure_in system.now line.now) }
{
    SystemNames::new(alloc, system)?.read_fail(alloc, line)
}
