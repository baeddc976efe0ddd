ghost use Rattle.std.specs.Prelude.{◌≡◌, ◌<◌, ◌≤◌, ◌^◌, length, filter};
ghost use Rattle.std.specs.List.{list_any};
ghost use Rattle.pw_code.specs.Limits.{most_fail_lines};
ghost use Rattle.pw_event.specs.Due.{pair_of, owner_of, owner_of_line, after_of, is_same_owner, owner_entry_count, is_fail_of, is_open, if_due, due_line};

use crate::event::Event;
use crate::script::{FailLine, Owner, Script};
use pw_code::system::System;

/// The pair of a terminal; one that is not there counts to the first pair.
fn pair_of(system: &System, terminal: u32) -> u32
    ensures { result ≡ pair_of system.now terminal }
{
    let terminals = system.terminals.as_slice();
    let place = terminal as usize;
    if place < terminals.len() {
        terminals[place].tcp
    } else {
        0
    }
}

/// Whom an entry belongs to; a terminal that is not there is of the first pair.
pub fn owner_of(system: &System, event: &Event) -> Owner
    ensures { result ≡ owner_of (pair_of system.now) event.now }
{
    match *event {
        Event::Take { class, .. }
        | Event::File { class, .. }
        | Event::Reply { class, .. }
        | Event::FailServer { class, .. } => Owner::Class(class),
        Event::FailTcp { tcp, .. } | Event::Takeover { tcp } | Event::Raise { tcp } => {
            Owner::Tcp(tcp)
        }
        Event::Show { terminal, .. }
        | Event::Key { terminal, .. }
        | Event::CheckStart { terminal }
        | Event::CheckEnd { terminal }
        | Event::CheckCopy { terminal }
        | Event::Applied { terminal }
        | Event::Begin { terminal, .. }
        | Event::Send { terminal, .. }
        | Event::Again { terminal, .. }
        | Event::Commit { terminal, .. }
        | Event::Back { terminal, .. }
        | Event::Restart { terminal, .. }
        | Event::End { terminal, .. } => Owner::Tcp(pair_of(system, terminal)),
    }
}

/// Whom a failure line is of.
fn owner_of_line(line: FailLine) -> Owner
    ensures { result ≡ owner_of_line line }
{
    match line {
        FailLine::Tcp { tcp, .. } => Owner::Tcp(tcp),
        FailLine::Server { class, .. } => Owner::Class(class),
    }
}

/// After how many entries of its owner, a pair or a class, a failure line is due (docs/reference/DECK.md).
pub fn after_of(line: FailLine) -> u32
    ensures { result ≡ after_of line }
{
    match line {
        FailLine::Tcp { after, .. } | FailLine::Server { after, .. } => after,
    }
}

/// Whether both are one pair, or one class.
fn is_same_owner(a: Owner, b: Owner) -> bool
    ensures { result ≡ is_same_owner a b }
{
    match (a, b) {
        (Owner::Tcp(a), Owner::Tcp(b)) | (Owner::Class(a), Owner::Class(b)) => a == b,
        _ => false,
    }
}

/// How many entries of the log belong to an owner.
fn entries_of(system: &System, owner: Owner, log: &[Event]) -> usize
    ensures { result ≡ owner_entry_count (pair_of system.now) owner log.now }
{
    log.iter()
        .filter(|entry| is_same_owner(owner_of(system, entry), owner))
        .count()
}

/// Whether an entry is the FAIL entry of the failure line of this number, from 1 over the whole script
/// (docs/reference/DECK.md).
pub fn is_fail_of(number: u32, event: &Event) -> bool
    ensures { result ≡ is_fail_of number event.now }
{
    match *event {
        Event::FailTcp { line, .. } | Event::FailServer { line, .. } => line == number,
        _ => false,
    }
}

/// Whether the failure line of this number has its FAIL entry.
fn has_failed(number: u32, log: &[Event]) -> bool
    ensures { result ≡ list_any (is_fail_of number) log.now }
{
    log.iter().any(|entry| is_fail_of(number, entry))
}

/// Whether a failure line, by its number, is of an owner and has no FAIL entry.
fn is_open(number: u32, line: FailLine, log: &[Event], owner: Owner) -> bool
    ensures { result ≡ is_open log.now owner (record { number = number; line = line }) }
{
    is_same_owner(owner_of_line(line), owner) && !has_failed(number, log)
}

/// The number of a failure line, where there are at least as many entries as it says.
fn if_due(entries: usize, number: u32, line: FailLine) -> Option<u32>
    ensures { result ≡ if_due entries (Some (record { number = number; line = line })) }
{
    if after_of(line) as usize <= entries {
        Some(number)
    } else {
        None
    }
}

/// The number of the failure line of an owner that is due, from 1 over the whole script: the owner's first line that
/// has no FAIL entry in the log yet, where the log has at least as many entries of the owner as the line says. It takes
/// no memory.
pub fn due(system: &System, script: &Script, log: &[Event], owner: Owner) -> Option<u32>
    requires { length script.now.lines ≤ most_fail_lines }
    ensures { result ≡ due_line (pair_of system.now) script.now.lines log.now owner }
{
    let mut number = 1;
    let mut rest = script.lines.as_slice();
    while let Some((line, behind)) = rest.split_first() {
        if is_open(number, *line, log, owner) {
            return if_due(entries_of(system, owner, log), number, *line);
        }
        number += 1;
        rest = behind;
    }
    None
}
