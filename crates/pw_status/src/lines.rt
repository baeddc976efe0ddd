ghost use Rattle.std.specs.Prelude.{◌≡◌, ◌<◌, ◌++◌, IfOk, IfSome, OnOk, length, map, string_bytes};
ghost use Rattle.std.specs.Fmt.{decimal};
ghost use Rattle.std.specs.List.{AllByRecursion};
ghost use Rattle.pw_event.specs.Line.{IsWordOfSystem, ending_words, sentence};
ghost use Rattle.pw_report_text.specs.Lines.{line};
ghost use Rattle.pw_status.specs.Text.{class_line, ending_or_running, entries_line, file_line, mode_word, pair_line, terminal_line, units_line};

use crate::counts::{ClassCounts, FileCounts, TerminalCounts, UnitCounts};
use pw_base::bytes::Bytes;
use pw_base::memory::Memory;
use pw_code::system::System;
use pw_event::event::Ending;
use pw_event::names::{class_name, file_name, pair_name, terminal_name};
use pw_event::printing::print_ending;
use pw_event::sentence::sentence;
use pw_pair::mode::Mode;
use std::alloc::{AllocError, Global};

/// The digits of a number.
fn digits(alloc: Global, number: u64) -> Result<String, AllocError>
    ensures { IfOk result (λ text. string_bytes text ≡ decimal number) }
{
    format!(in alloc; "{number}")
}

/// Puts a line of these words behind the text. An `Err` of this and of the other calls may leave a
/// part of the line there.
fn put_line(text: &mut Bytes, words: &[&[u8]]) -> Result<(), Memory>
    ensures { OnOk result (text.new
        ≡ text.old ++ line (sentence (map (λ word. word.now) words.now))) }
{
    let words = sentence(text.allocator(), words)?;
    text.extend(words.as_slice())?;
    text.push(b'\n')
}

/// Puts the line of how many entries there are behind the text.
pub fn print_entries(text: &mut Bytes, count: usize) -> Result<(), Memory>
    ensures { OnOk result (text.new ≡ text.old ++ entries_line count) }
{
    let count = digits(text.allocator(), count as u64)?;
    put_line(text, &[b"ENTRIES", count.as_bytes()])
}

/// The word of a mode.
fn mode_word(mode: Mode) -> &'static [u8]
    ensures { result.now ≡ mode_word mode }
{
    match mode {
        Mode::Alone => b"ALONE",
        Mode::Raising => b"RAISING",
        Mode::Paired => b"PAIRED",
        Mode::Down => b"DOWN",
        Mode::Gone => b"GONE",
    }
}

/// Puts the line of a pair behind the text.
pub fn print_pair(text: &mut Bytes, system: &System, tcp: u32, mode: Mode) -> Result<(), Memory>
    requires { tcp < length system.now.tcps }
    ensures { OnOk result (text.new ≡ text.old ++ pair_line system.now tcp mode) }
{
    let word = Bytes::from_slice(text.allocator(), mode_word(mode))?;
    put_line(text, &[b"TCP", pair_name(system, tcp), word.as_slice()])
}

/// RUNNING, or the whole ending.
fn ending_or_running(
    alloc: Global,
    system: &System,
    ending: Option<Ending>,
) -> Result<Bytes, Memory>
    requires { IfSome ending (λ ending. AllByRecursion (IsWordOfSystem system.now) (ending_words ending)) }
    ensures { IfOk result (λ text. text ≡ ending_or_running system.now ending) }
{
    match ending {
        Some(ending) => {
            let mut text = Bytes::new(alloc);
            print_ending(&mut text, system, ending)?;
            Ok(text)
        }
        None => Bytes::from_slice(alloc, b"RUNNING"),
    }
}

/// Puts the line of a terminal behind the text. The terminals and pairs of the cause of its ending,
/// if any, are the system's.
pub fn print_terminal(
    text: &mut Bytes,
    system: &System,
    terminal: u32,
    ending: Option<Ending>,
    counts: &TerminalCounts,
) -> Result<(), Memory>
    requires terminal { terminal < length system.now.terminals }
    requires ending { IfSome ending
        (λ ending. AllByRecursion (IsWordOfSystem system.now) (ending_words ending)) }
    ensures { OnOk result (text.new
        ≡ text.old ++ terminal_line system.now terminal ending counts.now) }
{
    let alloc = text.allocator();
    let word = ending_or_running(alloc, system, ending)?;
    let units = digits(alloc, counts.units as u64)?;
    let restarts = digits(alloc, counts.restarts as u64)?;
    let entries = digits(alloc, counts.entries as u64)?;
    let shown = digits(alloc, counts.shown as u64)?;
    put_line(
        text,
        &[
            b"TERM",
            terminal_name(system, terminal),
            word.as_slice(),
            b"UNITS",
            units.as_bytes(),
            b"RESTARTS",
            restarts.as_bytes(),
            b"ENTRIES",
            entries.as_bytes(),
            b"SHOWN",
            shown.as_bytes(),
        ],
    )
}

/// Puts the line of a class behind the text.
pub fn print_class(
    text: &mut Bytes,
    system: &System,
    class: u32,
    counts: &ClassCounts,
) -> Result<(), Memory>
    requires { class < length system.now.classes }
    ensures { OnOk result (text.new ≡ text.old ++ class_line system.now class counts.now) }
{
    let alloc = text.allocator();
    let waiting = digits(alloc, counts.waiting as u64)?;
    let busy = digits(alloc, counts.busy as u64)?;
    let taken = digits(alloc, counts.taken as u64)?;
    let longest = digits(alloc, counts.longest as u64)?;
    put_line(
        text,
        &[
            b"SERVER",
            class_name(system, class),
            b"WAITING",
            waiting.as_bytes(),
            b"BUSY",
            busy.as_bytes(),
            b"TAKEN",
            taken.as_bytes(),
            b"LONGEST",
            longest.as_bytes(),
        ],
    )
}

/// Puts the line of a file behind the text.
pub fn print_file(
    text: &mut Bytes,
    system: &System,
    file: u32,
    counts: &FileCounts,
) -> Result<(), Memory>
    requires { file < length system.now.files }
    ensures { OnOk result (text.new ≡ text.old ++ file_line system.now file counts.now) }
{
    let alloc = text.allocator();
    let records = digits(alloc, counts.records)?;
    let locks = digits(alloc, counts.locks as u64)?;
    put_line(
        text,
        &[
            b"FILE",
            file_name(system, file),
            b"RECORDS",
            records.as_bytes(),
            b"LOCKS",
            locks.as_bytes(),
        ],
    )
}

/// Puts the line of the units behind the text.
pub fn print_units(text: &mut Bytes, counts: &UnitCounts) -> Result<(), Memory>
    ensures { OnOk result (text.new ≡ text.old ++ units_line counts.now) }
{
    let alloc = text.allocator();
    let begun = digits(alloc, counts.begun as u64)?;
    let committed = digits(alloc, counts.committed as u64)?;
    let dropped = digits(alloc, counts.dropped as u64)?;
    let left = digits(alloc, counts.left)?;
    let older = digits(alloc, counts.older as u64)?;
    let takeover = digits(alloc, counts.takeover as u64)?;
    let server = digits(alloc, counts.server as u64)?;
    let redo = digits(alloc, counts.redo as u64)?;
    put_line(
        text,
        &[
            b"TMF",
            b"BEGUN",
            begun.as_bytes(),
            b"COMMITTED",
            committed.as_bytes(),
            b"DROPPED",
            dropped.as_bytes(),
            b"LEFT",
            left.as_bytes(),
            b"OLDER",
            older.as_bytes(),
            b"TAKEOVER",
            takeover.as_bytes(),
            b"SERVER",
            server.as_bytes(),
            b"REDO",
            redo.as_bytes(),
        ],
    )
}
