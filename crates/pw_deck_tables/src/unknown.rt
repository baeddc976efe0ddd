ghost use Rattle.std.specs.Prelude.{◌≡◌, ◌++◌, List, Ok, None, flat_map, IfOk};
ghost use Rattle.pw_base.specs.declared.fault.Fault.{Fault};
ghost use Rattle.pw_base.specs.First.{least};
ghost use Rattle.pw_code.specs.Valid.{HasNames, HasFew};
ghost use Rattle.pw_deck_tables.specs.Unknown.{refusing, failures_in, events_in, log_version, has_terminal, unknown_terminal, fault_in, bad_starts_in};

use crate::objects::TermEntries;
use crate::piece::DeckPiece;
use pw_base::fault::{Fault, Refusal, better, noted};
use pw_base::fault_code::FaultCode;
use pw_base::list::List;
use pw_base::memory::Memory;
use pw_code::system::System;
use pw_event::event::Event;
use pw_event::script::FailLine;
use pw_event::system_names::SystemNames;
use pw_log_lines::fail::failures;
use pw_log_lines::log::{events, version_of};
use pw_pathcom::commands::Commands;
use pw_pathcom::objects::first_bad_start;
use std::alloc::Global;

/// What was read, or its fault.
fn settled<T>(read: Result<T, Refusal>) -> Result<Result<T, Fault>, Memory>
    ensures { IfOk result (λ settled. read ≡ refusing settled) }
{
    match read {
        Ok(value) => Ok(Ok(value)),
        Err(Refusal::At { line, code }) => Ok(Err(Fault { line, code })),
        Err(Refusal::Memory) => Err(Memory),
    }
}

/// The failure lines of a piece, in a system, or their first fault.
pub fn failures_in(
    alloc: Global,
    system: &System,
    piece: &Option<DeckPiece>,
) -> Result<Result<List<FailLine>, Fault>, Memory>
    requires names { HasNames system.now }
    requires few { HasFew system.now }
    ensures { IfOk result (λ read. read ≡ failures_in system.now piece.now) }
{
    match piece {
        Some(piece) => {
            let names = SystemNames::new(alloc, system)?;
            settled(failures(alloc, &names, piece.bytes, piece.first_line))
        }
        None => Ok(Ok(List::new(alloc))),
    }
}

/// The version of a log: 2 where there is none.
pub fn log_version(piece: &Option<DeckPiece>) -> u8
    ensures { result ≡ log_version piece.now }
{
    match piece {
        Some(piece) => version_of(piece.bytes, piece.first_line),
        None => 2,
    }
}

/// The entries of a log, in a system, or their first fault.
pub fn events_in(
    alloc: Global,
    system: &System,
    piece: &Option<DeckPiece>,
) -> Result<Result<List<Event>, Fault>, Memory>
    requires names { HasNames system.now }
    requires few { HasFew system.now }
    ensures { IfOk result (λ read. read ≡ events_in system.now piece.now) }
{
    match piece {
        Some(piece) => {
            let names = SystemNames::new(alloc, system)?;
            settled(events(alloc, &names, piece.bytes, piece.first_line))
        }
        None => Ok(Ok(List::new(alloc))),
    }
}

/// Whether a terminal of this name is in the system.
fn has_terminal(system: &System, name: &[u8]) -> bool
    ensures { result ≡ has_terminal system.now name.now }
{
    let terminals = system.terminals.as_slice();
    terminals
        .iter()
        .any(|terminal| terminal.name.as_slice() == name)
}

/// The first of the fault that is known, and of that of an ENTRIES section of no terminal.
fn noted_section(known: Option<Fault>, system: &System, section: &TermEntries) -> Option<Fault>
    ensures { result ≡ least known (unknown_terminal system.now section.now) }
{
    let fault = Fault {
        line: section.line,
        code: FaultCode::UnknownObject,
    };
    noted(known, !has_terminal(system, section.name.as_slice()), fault)
}

/// The first of the fault that is known, and of those of ENTRIES sections of no terminal.
fn noted_sections(known: Option<Fault>, system: &System, sections: &[TermEntries]) -> Option<Fault>
    ensures { result ≡ least known (flat_map (unknown_terminal system.now) sections.now) }
{
    let mut best = known;
    for section in sections {
        best = noted_section(best, system, section);
    }
    best
}

/// The first of the fault that is known, and of that of a reading.
fn noted_in<T>(known: Option<Fault>, read: &Result<T, Fault>) -> Option<Fault>
    ensures { result ≡ least known (fault_in read.now) }
{
    match read {
        Ok(_) => known,
        Err(fault) => better(known, *fault),
    }
}

/// The first of the faults of what is not there: of the ADDs that are known, of the ENTRIES sections, of
/// the failure lines and of the log.
pub fn first_of_all(
    adds: Option<Fault>,
    system: &System,
    sections: &[TermEntries],
    fails: &Result<List<FailLine>, Fault>,
    events: &Result<List<Event>, Fault>,
) -> Option<Fault>
    ensures { (known : List Fault) → adds ≡ least None known → result ≡ least None
        (known ++ (flat_map (unknown_terminal system.now) sections.now ++ (fault_in fails.now ++ fault_in events.now))) }
{
    let best = noted_sections(adds, system, sections);
    noted_in(noted_in(best, fails), events)
}

/// The first of the STARTs that may not be.
pub fn first_start(
    alloc: Global,
    commands: &Commands,
    piece: &Option<DeckPiece>,
) -> Result<Option<Fault>, Memory>
    ensures { IfOk result (λ best. best ≡ least None (bad_starts_in commands.now piece.now)) }
{
    match piece {
        Some(piece) => first_bad_start(alloc, commands, piece.bytes, piece.first_line),
        None => Ok(None),
    }
}
