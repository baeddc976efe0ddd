//! The status text of what is watched.

ghost use Rattle.std.specs.Prelude.{◌≡◌, ◌+◌, ◌-◌, ◌<◌, ◌^◌, ◌++◌, IfOk, OnOk, if◌then◌else◌, length};
ghost use Rattle.pw_status.specs.Counts.{busy_to, class_counts, file_counts, terminal_counts};
ghost use Rattle.pw_status.specs.Tally.{IsTallyOf};
ghost use Rattle.pw_status.specs.Text.{lines_to, status_text};
ghost use Rattle.pw_status.specs.Lines.{class_watch_line, file_of, pair_watch_line, terminal_of};
ghost use Rattle.pw_status.specs.Watching.{IsWatch, state_in, sys_in, watched};

use crate::counts::{ClassCounts, FileCounts, TerminalCounts};
use crate::laws::number_laws;
use crate::lines::{
    print_class, print_entries, print_file, print_pair, print_terminal, print_units,
};
use crate::meeting::waiting;
use crate::shown::Numbers;
use crate::tally::Tally;
use pw_base::bytes::Bytes;
use pw_base::memory::Memory;
use pw_tmf::tmf::Tmf;
use pw_world::world::World;
use std::alloc::Global;

/// The status text of the log of a world, with what is counted of it.
pub(crate) fn text_of(
    alloc: Global,
    world: &World<Tmf>,
    tally: &Tally,
    numbers: &Numbers,
) -> Result<Bytes, Memory>
    requires { IsWatch world.now tally.now numbers.now }
    ensures { IfOk result (λ text. text
        ≡ status_text world.now.keep.system (sys_in (watched world.now)) world.now.ledger.log) }
{
    let mut text = Bytes::new(alloc);
    print_entries(&mut text, world.log().len())?;
    print_pairs(&mut text, world)?;
    print_terminals(&mut text, world, tally, numbers)?;
    print_classes(&mut text, world, tally)?;
    print_files(&mut text, alloc, world)?;
    print_units(&mut text, &tally.units())?;
    Ok(text)
}

/// Puts the lines of the pairs behind the text. An `Err` of this and of the other calls may leave some of
/// the lines there.
fn print_pairs(text: &mut Bytes, world: &World<Tmf>) -> Result<(), Memory>
    ensures { OnOk result (text.new ≡ text.old
        ++ lines_to (pair_watch_line (watched world.now)) (length world.now.keep.system.tcps)) }
{
    world.holds();
    let system = world.system();
    for tcp in 0..system.tcps.len() as u32 {
        print_pair(text, system, tcp, world.mode(tcp))?;
    }
    Ok(())
}

/// Puts the lines of the terminals behind the text.
fn print_terminals(
    text: &mut Bytes,
    world: &World<Tmf>,
    tally: &Tally,
    numbers: &Numbers,
) -> Result<(), Memory>
    requires { IsWatch world.now tally.now numbers.now }
    ensures { OnOk result (text.new ≡ text.old
        ++ lines_to (terminal_of (watched world.now)) (length world.now.keep.system.terminals)) }
{
    world.holds();
    let system = world.system();
    for terminal in 0..system.terminals.len() as u32 {
        let counts = count_terminal(world, tally, numbers, terminal);
        print_terminal(text, system, terminal, world.ending(terminal), &counts)?;
    }
    Ok(())
}

/// What is counted of a terminal.
fn count_terminal(
    world: &World<Tmf>,
    tally: &Tally,
    numbers: &Numbers,
    terminal: u32,
) -> TerminalCounts
    requires watch { IsWatch world.now tally.now numbers.now }
    requires terminal { terminal < length world.now.keep.system.terminals }
    ensures { result ≡ terminal_counts (sys_in (watched world.now)) world.now.ledger.log terminal }
{
    number_laws();
    world.holds();
    let shown = numbers.count(terminal) as u32;
    TerminalCounts {
        units: world.last_ended(terminal),
        restarts: tally.restarts(terminal),
        entries: world.entries(terminal),
        shown,
    }
}

/// Puts the lines of the classes behind the text.
fn print_classes(text: &mut Bytes, world: &World<Tmf>, tally: &Tally) -> Result<(), Memory>
    requires { IsTallyOf world.now.keep.system (sys_in (watched world.now)) world.now.ledger.log tally.now }
    ensures { OnOk result (text.new ≡ text.old
        ++ lines_to (class_watch_line (watched world.now)) (length world.now.keep.system.classes)) }
{
    world.holds();
    let system = world.system();
    for class in 0..system.classes.len() as u32 {
        let counts = count_class(world, tally, class);
        print_class(text, system, class, &counts)?;
    }
    Ok(())
}

/// What is counted of a class.
fn count_class(world: &World<Tmf>, tally: &Tally, class: u32) -> ClassCounts
    requires tally { IsTallyOf world.now.keep.system (sys_in (watched world.now)) world.now.ledger.log
        tally.now }
    requires class { class < length world.now.keep.system.classes }
    ensures { result ≡ class_counts (sys_in (watched world.now)) world.now.ledger.log class }
{
    ClassCounts {
        waiting: waiting(world, class),
        busy: busy(world, class),
        taken: tally.taken(class),
        longest: tally.longest(class),
    }
}

/// How many processes of a class work.
fn busy(world: &World<Tmf>, class: u32) -> u32
    requires { class < length world.now.keep.system.classes }
    ensures { result ≡ busy_to (state_in (watched world.now)) class
        ((sys_in (watched world.now)).processes class) }
{
    let processes = world.system().classes.as_slice()[class as usize].processes;
    let mut busy = 0;
    for process in 0..processes {
        busy = with_one(busy, world.worker(class, process + 1).is_some());
    }
    busy
}

/// One more, or as many.
fn with_one(count: u32, one: bool) -> u32
    requires { count < 2 ^ 32 - 1 }
    ensures { result ≡ (if one then count + 1 else count) }
{
    if one { count + 1 } else { count }
}

/// Puts the lines of the files behind the text.
fn print_files(text: &mut Bytes, alloc: Global, world: &World<Tmf>) -> Result<(), Memory>
    ensures { OnOk result (text.new ≡ text.old
        ++ lines_to (file_of (watched world.now)) (length world.now.keep.system.files)) }
{
    world.holds();
    let system = world.system();
    for file in 0..system.files.len() as u32 {
        print_file(text, system, file, &count_file(alloc, world, file)?)?;
    }
    Ok(())
}

/// What is counted of a file: its records and locks, as the disc has them.
fn count_file(alloc: Global, world: &World<Tmf>, file: u32) -> Result<FileCounts, Memory>
    requires { file < length world.now.keep.system.files }
    ensures { IfOk result (λ counts. counts
        ≡ file_counts (sys_in (watched world.now)) world.now.ledger.log file) }
{
    world.holds();
    let disc = world.disc();
    let records = disc.record_count(alloc, file)?;
    Ok(FileCounts {
        records: records as u64,
        locks: disc.lock_count(file) as u64,
    })
}
