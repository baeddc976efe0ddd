ghost use Rattle.std.specs.Prelude.{◌≡◌, ◌≤◌, ◌<◌, ◌^◌, List, ℕ, false, map, length, position, IfSome, IfOk};
ghost use Rattle.std.specs.List.{filter, IsDistinct};
ghost use Rattle.std.specs.Str.{bytes_eq};
ghost use Rattle.pw_deck_tables.specs.Tables.{number_among_names, is_started, class_from_command, terminal_of, tables, entries_for, with_entries, with_terminal_entries};

use crate::objects::TermEntries;
use pw_base::bytes::Bytes;
use pw_base::list::List;
use pw_base::memory::Memory;
use pw_code::entry::EntryLine;
use pw_code::file::FileInfo;
use pw_code::lock::LockRule;
use pw_code::system::{ClassInfo, System, TermInfo};
use pw_pathcom::commands::{ClassCommand, Commands, Started, TermCommand};
use std::alloc::Global;

/// The names of the pairs, in their order.
fn tcp_names(alloc: Global, tcps: &[Started]) -> Result<List<Bytes>, Memory>
    ensures { IfOk result (λ names. names ≡ map (λ tcp. tcp.name) tcps.now) }
{
    let mut names = List::new(alloc);
    for tcp in tcps {
        names.push(tcp.name.copy(alloc)?)?;
    }
    Ok(names)
}

/// The names of the classes, in their order.
pub fn class_names(alloc: Global, classes: &[ClassCommand]) -> Result<List<Bytes>, Memory>
    ensures { IfOk result (λ names. names ≡ map (λ class. class.name) classes.now) }
{
    let mut names = List::new(alloc);
    for class in classes {
        names.push(class.name.copy(alloc)?)?;
    }
    Ok(names)
}

/// The place of a name among names.
fn place_of(names: &[Bytes], word: &[u8]) -> Option<usize>
    ensures place { result ≡ position (λ name. bytes_eq name word.now) names.now }
    ensures bound { IfSome result (λ place. place < length names.now) }
{
    names.iter().position(|name| name.as_slice() == word)
}

/// The number of a name among names; 0 where it is none of them.
fn number_of(names: &[Bytes], word: &[u8]) -> u32
    requires { length names.now ≤ 2 ^ 32 }
    ensures { result ≡ number_among_names names.now word.now }
{
    match place_of(names, word) {
        Some(place) => place as u32,
        None => 0,
    }
}

/// A class, by the names of the programs of servers.
fn class_of(alloc: Global, servers: &[Bytes], class: &ClassCommand) -> Result<ClassInfo, Memory>
    requires { length servers.now ≤ 2 ^ 32 }
    ensures { IfOk result (λ info. info ≡ class_from_command servers.now class.now) }
{
    Ok(ClassInfo {
        name: class.name.copy(alloc)?,
        server: number_of(servers, class.program.as_slice()),
        processes: class.processes,
    })
}

/// The classes, in their order.
fn classes_of(
    alloc: Global,
    servers: &[Bytes],
    classes: &[ClassCommand],
) -> Result<List<ClassInfo>, Memory>
    requires { length servers.now ≤ 2 ^ 32 }
    ensures { IfOk result (λ infos. infos ≡ map (class_from_command servers.now) classes.now) }
{
    let mut infos = List::new(alloc);
    for class in classes {
        infos.push(class_of(alloc, servers, class)?)?;
    }
    Ok(infos)
}

/// A terminal before its entries, by the names of the pairs and of the programs.
fn terminal_of(
    alloc: Global,
    tcps: &[Bytes],
    programs: &[Bytes],
    terminal: &TermCommand,
) -> Result<TermInfo, Memory>
    requires { (length tcps.now ≤ 2 ^ 32) × (length programs.now ≤ 2 ^ 32) }
    ensures { IfOk result (λ info. info ≡ terminal_of tcps.now programs.now terminal.now) }
{
    Ok(TermInfo {
        name: terminal.name.copy(alloc)?,
        tcp: number_of(tcps, terminal.tcp.as_slice()),
        program: number_of(programs, terminal.program.as_slice()),
        max_restarts: terminal.max_restarts,
        entries: List::new(alloc),
    })
}

/// The terminals that are started, in their order, before their entries.
fn terminals_of(
    alloc: Global,
    tcps: &[Bytes],
    programs: &[Bytes],
    terminals: &[TermCommand],
) -> Result<List<TermInfo>, Memory>
    requires { (length tcps.now ≤ 2 ^ 32) × (length programs.now ≤ 2 ^ 32) }
    ensures { IfOk result (λ infos.
        infos ≡ map (terminal_of tcps.now programs.now) (filter is_started terminals.now)) }
{
    let mut infos = List::new(alloc);
    for terminal in terminals {
        if terminal.started.is_some() {
            infos.push(terminal_of(alloc, tcps, programs, terminal)?)?;
        }
    }
    Ok(infos)
}

/// The tables of a system before the entries of its terminals, by the commands, the names of programs
/// and the files.
pub fn tables(
    alloc: Global,
    commands: &Commands,
    programs: &[Bytes],
    servers: &[Bytes],
    files: List<FileInfo>,
    rule: LockRule,
) -> Result<System, Memory>
    requires few { (length programs.now ≤ 2 ^ 32) × (length servers.now ≤ 2 ^ 32) }
    requires pairs { length commands.now.tcps ≤ 2 ^ 32 }
    ensures { IfOk result (λ system. system ≡ tables commands.now programs.now servers.now files rule) }
{
    let tcps = tcp_names(alloc, commands.tcps.as_slice())?;
    let classes = classes_of(alloc, servers, commands.classes.as_slice())?;
    let terminals = terminals_of(
        alloc,
        tcps.as_slice(),
        programs,
        commands.terminals.as_slice(),
    )?;
    Ok(System {
        programs: List::new(alloc),
        servers: List::new(alloc),
        screens: List::new(alloc),
        classes,
        files,
        tcps,
        terminals,
        rule,
    })
}

/// The place of the ENTRIES section of a terminal.
fn section_place(sections: &[TermEntries], name: &[u8]) -> Option<usize>
    ensures place { result ≡ position (λ section. bytes_eq section.name name.now) sections.now }
    ensures bound { IfSome result (λ place. place < length sections.now) }
{
    sections
        .iter()
        .position(|section| section.name.as_slice() == name)
}

/// Takes the entries of a terminal out of the ENTRIES sections. Those of other terminals stay.
fn take_entries(alloc: Global, sections: &mut Vec<TermEntries>, name: &[u8]) -> List<EntryLine>
    ensures entries { result ≡ entries_for sections.old.items name.now }
    ensures others { (other : List ℕ) → bytes_eq name.now other ≡ false
        → entries_for sections.new.items other ≡ entries_for sections.old.items other }
{
    match section_place(sections.as_slice(), name) {
        Some(place) => {
            let section = sections.remove(place);
            section.entries
        }
        None => List::new(alloc),
    }
}

/// Gives a terminal its entries. The sections of other terminals stay.
fn enter_one(alloc: Global, sections: &mut Vec<TermEntries>, terminal: &mut TermInfo)
    ensures terminal { terminal.new ≡ with_entries sections.old.items terminal.old }
    ensures others { (other : List ℕ) → bytes_eq terminal.old.name other ≡ false
        → entries_for sections.new.items other ≡ entries_for sections.old.items other }
{
    terminal.entries = take_entries(alloc, sections, terminal.name.as_slice());
}

/// Gives each of some terminals its entries.
fn enter_all(alloc: Global, sections: &mut Vec<TermEntries>, terminals: &mut Vec<TermInfo>)
    requires { IsDistinct bytes_eq (map (λ terminal. terminal.name) terminals.old.items) }
    ensures { terminals.new.items ≡ map (with_entries sections.old.items) terminals.old.items }
{
    for terminal in terminals.iter_mut() {
        enter_one(alloc, sections, terminal);
    }
}

/// Gives each terminal of a system its entries. It takes no memory.
pub fn enter(alloc: Global, system: System, sections: List<TermEntries>) -> System
    requires { IsDistinct bytes_eq (map (λ terminal. terminal.name) system.terminals) }
    ensures { result ≡ with_terminal_entries sections system }
{
    let mut sections = sections.into_vec();
    let mut terminals = system.terminals.into_vec();
    enter_all(alloc, &mut sections, &mut terminals);
    System {
        terminals: List::from_vec(terminals),
        ..system
    }
}
