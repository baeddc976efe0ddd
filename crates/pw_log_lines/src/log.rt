ghost use Rattle.std.specs.Prelude.{◌≡◌, ◌==◌, ◌-◌, ◌+◌, ◌*◌, ◌≢◌, ◌∷◌, [], ◌^◌, ◌<◌, ◌≤◌, length, position, IfSome, IfOk, OnOk};
ghost use Rattle.std.specs.Option.{option_map};
ghost use Rattle.std.specs.Fmt.{decimal};
ghost use Rattle.std.specs.Str.{bytes_eq};
ghost use Rattle.pw_base.specs.First.{Gives};
ghost use Rattle.pw_base.specs.Limits.{longest_input};
ghost use Rattle.pw_code.specs.Valid.{HasNames};
ghost use Rattle.pw_event.specs.Parsing.{GivesUnlessMemory};
ghost use Rattle.pw_sections.specs.Lines.{lines};
ghost use Rattle.pw_sections.specs.Steps.{line_taken, each_line};
ghost use Rattle.pw_sections.specs.Words.{words};
ghost use Rattle.pw_log_lines.specs.Grammar.{nobody, is_bad};
ghost use Rattle.pw_log_lines.specs.Log.{opened, header, rule_of, behind_number, entry_behind, numbered_entry, entry_counted, entries_counted, version_of, event_read, events_of};

use crate::count::{CountedLines, count_lines};
use crate::nobody::nobody;
use pw_base::fault::Refusal;
use pw_base::fault_code::FaultCode;
use pw_base::list::List;
use pw_base::memory::Memory;
use pw_code::lock::LockRule;
use pw_code::system::System;
use pw_event::event::Event;
use pw_event::fault::EventFault;
use pw_event::system_names::SystemNames;
use pw_sections::line::next_line;
use pw_sections::word::is_blank;
use std::alloc::Global;

/// The line that begins a log of version 2.
const HEADER: &[u8] = b"PATHWAY LOG 2";

/// The most entries of a log.
pub const MAX_LOG_LINES: u32 = 500_000;

/// A log behind its header: its version, 1 or 2, its lines, and the number of the first of them.
#[derive(Clone, Copy, Debug)]
struct Log<'a> {
    version: u8,
    first_line: u32,
    text: &'a [u8],
}

/// Opens a log whose first line has the number `first_line`: version 2 where its first line that is
/// not blank is `PATHWAY LOG 2`, or where there is no such line, else version 1.
fn open_log(text: &[u8], first_line: u32) -> Log<'_>
    requires { first_line + length text.now ≤ 2 * longest_input + 1 }
    ensures opened { opened first_line (lines text.now)
        ≡ record { version = result.version; first_line = result.first_line; lines = lines result.text.now } }
    ensures lines { first_line ≤ result.first_line }
    ensures within { result.first_line + length result.text.now ≤ first_line + length text.now }
{
    let mut number = first_line;
    let mut rest = text;
    while let Some((line, behind)) = next_line(rest) {
        if !is_blank(line) {
            return opened_at(number, line, rest, behind);
        }
        number += 1;
        rest = behind;
    }
    Log {
        version: 2,
        first_line: number,
        text: rest,
    }
}

/// A log whose first line that is not blank is in front of a text.
fn opened_at<'a>(number: u32, line: &[u8], rest: &'a [u8], behind: &'a [u8]) -> Log<'a>
    requires line { lines rest.now ≡ line.now ∷ lines behind.now }
    requires some { words line.now ≢ [] }
    requires number { number + length rest.now ≤ 2 * longest_input + 1 }
    requires shorter { length behind.now < length rest.now }
    ensures opened { opened number (lines rest.now)
        ≡ record { version = result.version; first_line = result.first_line; lines = lines result.text.now } }
    ensures lines { number ≤ result.first_line }
    ensures within { result.first_line + length result.text.now ≤ number + length rest.now }
{
    if line == HEADER {
        Log {
            version: 2,
            first_line: number + 1,
            text: behind,
        }
    } else {
        Log {
            version: 1,
            first_line: number,
            text: rest,
        }
    }
}

/// The version of the log of a text whose first line has the number `first_line`: 2 where its first line
/// that is not blank is `PATHWAY LOG 2`, or where there is no such line, else 1.
pub fn version_of(text: &[u8], first_line: u32) -> u8
    requires { first_line + length text.now ≤ 2 * longest_input + 1 }
    ensures { result ≡ version_of text.now first_line }
{
    open_log(text, first_line).version
}

/// The rule of locking by which a log of a version is read.
pub fn rule_of(version: u8) -> LockRule
    ensures { result ≡ rule_of version }
{
    if version == 2 {
        LockRule::ReadersShare
    } else {
        LockRule::AllExclusive
    }
}

/// The place of the first space.
fn space_place(line: &[u8]) -> Option<usize>
    ensures place { result ≡ position (λ byte. byte == 32) line.now }
    ensures bound { IfSome result (λ place. place < length line.now) }
{
    line.iter().position(|byte| *byte == b' ')
}

/// Whether a word is the digits of a number.
fn is_number(word: &[u8], n: u32) -> bool
    ensures { result ≡ bytes_eq word.now (decimal n) }
{
    let Some((last, front)) = word.split_last() else {
        return false;
    };
    if n < 10 {
        return front.is_empty() && *last == b'0' + n as u8;
    }
    *last == b'0' + (n % 10) as u8 && is_number(front, n / 10)
}

/// What stands behind a number and a space; None exactly where they do not stand in front.
fn behind_number(n: u32, line: &[u8]) -> Option<&[u8]>
    ensures { option_map (λ rest. rest.now) result ≡ behind_number n line.now }
{
    let place = space_place(line)?;
    if is_number(line.split_at(place).0, n) {
        Some(line.split_at(place + 1).1)
    } else {
        None
    }
}

/// The entry of a line that begins with this number.
fn numbered_entry(
    alloc: Global,
    names: &SystemNames,
    n: u32,
    line: &[u8],
) -> Result<Event, EventFault>
    ensures { GivesUnlessMemory result (numbered_entry names.now n line.now) }
{
    match behind_number(n, line) {
        Some(rest) => names.read_event(alloc, rest),
        None => Err(EventFault::Bad),
    }
}

/// Whether a line is outside the grammar, or has another number.
fn is_bad(alloc: Global, names: &SystemNames, n: u32, line: &[u8]) -> Result<bool, Memory>
    ensures { IfOk result (λ bad. bad ≡ is_bad (numbered_entry names.now n line.now)) }
{
    match numbered_entry(alloc, names, n, line) {
        Ok(_) => Ok(false),
        Err(EventFault::Bad) => Ok(true),
        Err(EventFault::Unknown) => Ok(false),
        Err(EventFault::Memory) => Err(Memory),
    }
}

/// Log lines, read with the names of a system without a name.
struct LogLines;

impl CountedLines for LogLines {
    ghost use Rattle.std.specs.Prelude.{◌≡◌};
    ghost use Rattle.pw_code.specs.Limits.{most_log_lines};
    ghost use Rattle.pw_log_lines.specs.Grammar.{nobody};
    ghost use Rattle.pw_log_lines.specs.Log.{entry_counted};

    ghost are_read_by = { λ names. names ≡ nobody names.rule };

    ghost counted = { λ names. entry_counted names.rule };

    ghost most = { most_log_lines };

    fn count_line(
        alloc: Global,
        names: &SystemNames,
        number: u32,
        count: u32,
        line: &[u8],
    ) -> Result<u32, Refusal> {
        if is_blank(line) {
            return Ok(count);
        }
        if is_bad(alloc, names, count + 1, line)? {
            return Err(Refusal::At {
                line: number,
                code: FaultCode::BadLogLine,
            });
        }
        if count >= MAX_LOG_LINES {
            return Err(Refusal::At {
                line: number,
                code: FaultCode::TooMany,
            });
        }
        Ok(count + 1)
    }
}

/// How many entries the lines of a text have, with the names of a system without a name.
fn count_of_nobody(
    alloc: Global,
    system: &System,
    text: &[u8],
    first_line: u32,
) -> Result<u32, Refusal>
    requires system { system.now ≡ nobody system.now.rule }
    requires names { HasNames system.now }
    requires lines { first_line + length text.now ≤ 2 * longest_input + 1 }
    ensures { Gives (λ count. count) result (each_line (entry_counted system.now.rule) first_line 0 (lines text.now)) }
{
    let names = SystemNames::new(alloc, system)?;
    count_lines::<LogLines>(alloc, &names, text, first_line)
}

/// How many entries the lines of a text have under a rule of locking.
fn count_under(alloc: Global, rule: LockRule, text: &[u8], first_line: u32) -> Result<u32, Refusal>
    requires { first_line + length text.now ≤ 2 * longest_input + 1 }
    ensures { Gives (λ count. count) result (each_line (entry_counted rule) first_line 0 (lines text.now)) }
{
    let system = nobody(alloc, rule);
    count_of_nobody(alloc, &system, text, first_line)
}

/// How many entries the log of a text has, whose first line has the number `first_line`
/// (docs/reference/DECK.md).
///
/// It refuses exactly with the first fault, by line and on one line by code: 171 for a line outside
/// the grammar or with another number, and 196 for the line above `MAX_LOG_LINES`. What the lines
/// name is not looked at.
pub fn count_entries(alloc: Global, text: &[u8], first_line: u32) -> Result<u32, Refusal>
    requires { first_line + length text.now ≤ 2 * longest_input + 1 }
    ensures { Gives (λ count. count) result (entries_counted text.now first_line) }
{
    let log = open_log(text, first_line);
    count_under(alloc, rule_of(log.version), log.text, log.first_line)
}

/// Reads an entry behind the others. An `Err` says nothing of what was read.
fn read_event(
    alloc: Global,
    names: &SystemNames,
    number: u32,
    events: &mut List<Event>,
    line: &[u8],
) -> Result<(), Refusal>
    requires { length events.old < 2 ^ 32 - 1 }
    ensures gives { Gives (λ done. events.new) result (event_read names.now number events.old line.now) }
    ensures one { OnOk result (length events.new ≤ length events.old + 1) }
{
    match numbered_entry(alloc, names, events.len() as u32 + 1, line) {
        Ok(event) => {
            events.push(event)?;
            Ok(())
        }
        Err(EventFault::Memory) => Err(Refusal::Memory),
        Err(EventFault::Bad | EventFault::Unknown) => Err(Refusal::At {
            line: number,
            code: FaultCode::UnknownObject,
        }),
    }
}

/// Reads a line: one without a word says nothing. An `Err` says nothing of what was read.
fn read_line(
    alloc: Global,
    names: &SystemNames,
    number: u32,
    events: &mut List<Event>,
    line: &[u8],
) -> Result<(), Refusal>
    requires { length events.old < 2 ^ 32 - 1 }
    ensures gives { Gives (λ done. events.new) result (line_taken (event_read names.now) number events.old line.now) }
    ensures one { OnOk result (length events.new ≤ length events.old + 1) }
{
    if is_blank(line) {
        Ok(())
    } else {
        read_event(alloc, names, number, events, line)
    }
}

/// The entries of the lines of a text, the first of which has the number `first_line`.
fn read_lines(
    alloc: Global,
    names: &SystemNames,
    text: &[u8],
    first_line: u32,
) -> Result<List<Event>, Refusal>
    requires { first_line + length text.now ≤ 2 * longest_input + 1 }
    ensures { Gives (λ events. events) result (each_line (event_read names.now) first_line [] (lines text.now)) }
{
    let mut events = List::new(alloc);
    let mut number = first_line;
    let mut rest = text;
    while let Some((line, behind)) = next_line(rest) {
        read_line(alloc, names, number, &mut events, line)?;
        number += 1;
        rest = behind;
    }
    Ok(events)
}

/// The entries of the log of a text in a system, under the system's rule of locking. Its first line
/// has the number `first_line`.
///
/// It refuses exactly the first line, with 183, that says no entry of the system with its number.
pub fn events(
    alloc: Global,
    names: &SystemNames,
    text: &[u8],
    first_line: u32,
) -> Result<List<Event>, Refusal>
    requires { first_line + length text.now ≤ 2 * longest_input + 1 }
    ensures { Gives (λ events. events) result (events_of names.now text.now first_line) }
{
    let log = open_log(text, first_line);
    read_lines(alloc, names, log.text, log.first_line)
}
