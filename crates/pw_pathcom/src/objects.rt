ghost use Rattle.std.specs.Prelude.{◌≡◌, ◌+◌, ◌≤◌, None, length, flat_map, IfOk};
ghost use Rattle.pw_base.specs.First.{Gives, least, unless};
ghost use Rattle.pw_base.specs.Limits.{longest_input};
ghost use Rattle.pw_sections.specs.Lines.{lines};
ghost use Rattle.pw_sections.specs.Words.{words, name_in};
ghost use Rattle.pw_pathcom.specs.Verbs.{command_of};
ghost use Rattle.pw_pathcom.specs.Objects.{is_known, is_added_before, unknown_terminal, unknown_class, unknown, is_before, waits, runs_before, may_start, bad_start, bad_start_in, bad_starts, objects_of};

use crate::commands::{ClassCommand, Commands, TermCommand};
use crate::verb::{CommandVerb, Object, command_of};
use pw_base::bytes::Bytes;
use pw_base::fault::{Fault, Refusal, noted};
use pw_base::fault_code::FaultCode;
use pw_base::memory::Memory;
use pw_sections::line::next_line;
use pw_sections::word::name_in;
use std::alloc::Global;

/// Whether a name is one of some names.
fn is_known(names: &[Bytes], name: &[u8]) -> bool
    ensures { result ≡ is_known names.now name.now }
{
    names.iter().any(|known| known.as_slice() == name)
}

/// Whether a START stands before a line.
fn is_before(line: u32, started: Option<u32>) -> bool
    ensures { result ≡ is_before line started }
{
    match started {
        Some(start) => start < line,
        None => false,
    }
}

/// Whether what was added on one line, and first started on another, may be started on this line.
fn waits(line: u32, added: u32, started: Option<u32>) -> bool
    ensures { result ≡ waits line added started }
{
    added < line && !is_before(line, started)
}

impl Commands {
    /// Whether a TCP of the name was added before a line.
    fn is_added_before(&self, line: u32, name: &[u8]) -> bool
        ensures { result ≡ is_added_before self.now line name.now }
    {
        let tcps = self.tcps.as_slice();
        tcps.iter()
            .any(|tcp| tcp.name.as_slice() == name && tcp.line < line)
    }

    /// Whether a TCP of the name was started before a line.
    fn runs_before(&self, line: u32, name: &[u8]) -> bool
        ensures { result ≡ runs_before self.now line name.now }
    {
        let tcps = self.tcps.as_slice();
        tcps.iter().any(|tcp| tcp.name.as_slice() == name && is_before(line, tcp.started))
    }

    /// Whether a TCP of the name was added before the line and is not started.
    fn may_start_tcp(&self, line: u32, name: &[u8]) -> bool
        ensures { result ≡ may_start self.now line Object.Tcp name.now }
    {
        let tcps = self.tcps.as_slice();
        tcps.iter().any(|tcp| tcp.name.as_slice() == name && waits(line, tcp.line, tcp.started))
    }

    /// Whether a class of the name was added before the line and is not started.
    fn may_start_class(&self, line: u32, name: &[u8]) -> bool
        ensures { result ≡ may_start self.now line Object.Server name.now }
    {
        let classes = self.classes.as_slice();
        classes.iter().any(|class| class.name.as_slice() == name
            && waits(line, class.line, class.started))
    }

    /// Whether a terminal of the name waits for its START, and its TCP was started before the line.
    fn may_start_terminal(&self, line: u32, name: &[u8]) -> bool
        ensures { result ≡ may_start self.now line Object.Term name.now }
    {
        let terminals = self.terminals.as_slice();
        terminals.iter().any(|terminal| {
            terminal.name.as_slice() == name
                && (waits(line, terminal.line, terminal.started)
                    && self.runs_before(line, terminal.tcp.as_slice()))
        })
    }

    /// Whether an object of the name was added before the line and is not started; of a terminal the
    /// TCP is started.
    fn may_start(&self, line: u32, object: Object, name: &[u8]) -> bool
        ensures { result ≡ may_start self.now line object name.now }
    {
        match object {
            Object::Tcp => self.may_start_tcp(line, name),
            Object::Server => self.may_start_class(line, name),
            Object::Term => self.may_start_terminal(line, name),
        }
    }
}

/// The first of the fault that is known, and of the terminal's.
fn noted_terminal(
    known: Option<Fault>,
    commands: &Commands,
    programs: &[Bytes],
    terminal: &TermCommand,
) -> Option<Fault>
    ensures { result ≡ least known (unknown_terminal commands.now programs.now terminal.now) }
{
    let is_good = commands.is_added_before(terminal.line, terminal.tcp.as_slice())
        && is_known(programs, terminal.program.as_slice());
    let fault = Fault {
        line: terminal.line,
        code: FaultCode::UnknownObject,
    };
    noted(known, !is_good, fault)
}

/// The first of the fault that is known, and of the class's.
fn noted_class(known: Option<Fault>, servers: &[Bytes], class: &ClassCommand) -> Option<Fault>
    ensures { result ≡ least known (unknown_class servers.now class.now) }
{
    let fault = Fault {
        line: class.line,
        code: FaultCode::UnknownObject,
    };
    noted(known, !is_known(servers, class.program.as_slice()), fault)
}

/// The first of the fault that is known, and of those of the terminals.
fn noted_terminals(known: Option<Fault>, commands: &Commands, programs: &[Bytes]) -> Option<Fault>
    ensures { result ≡ least known (flat_map (unknown_terminal commands.now programs.now) commands.now.terminals) }
{
    let mut best = known;
    for terminal in commands.terminals.as_slice() {
        best = noted_terminal(best, commands, programs, terminal);
    }
    best
}

/// The first of the fault that is known, and of those of the classes.
fn noted_classes(known: Option<Fault>, commands: &Commands, servers: &[Bytes]) -> Option<Fault>
    ensures { result ≡ least known (flat_map (unknown_class servers.now) commands.now.classes) }
{
    let mut best = known;
    for class in commands.classes.as_slice() {
        best = noted_class(best, servers, class);
    }
    best
}

/// The first of the fault that is known, and of a START that may not be.
fn noted_start(
    alloc: Global,
    known: Option<Fault>,
    commands: &Commands,
    line: u32,
    verb: CommandVerb,
    operand: &[u8],
) -> Result<Option<Fault>, Memory>
    ensures { IfOk result (λ best. best ≡ least known (bad_start commands.now line verb (name_in operand.now))) }
{
    let CommandVerb::Start(object) = verb else {
        return Ok(known);
    };
    let Some(name) = name_in(alloc, operand)? else {
        return Ok(known);
    };
    let fault = Fault {
        line,
        code: FaultCode::BadStart,
    };
    Ok(noted(
        known,
        !commands.may_start(line, object, name.as_slice()),
        fault,
    ))
}

/// The first of the fault that is known, and of the line's.
fn noted_line(
    alloc: Global,
    known: Option<Fault>,
    commands: &Commands,
    number: u32,
    line: &[u8],
) -> Result<Option<Fault>, Memory>
    ensures { IfOk result (λ best. best ≡ least known (bad_start_in commands.now number (command_of (words line.now)))) }
{
    match command_of(line) {
        Some((verb, operand)) => noted_start(alloc, known, commands, number, verb, operand),
        None => Ok(known),
    }
}

/// The first of the ADDs of what is not there: a terminal whose TCP was not added before it, and one, or
/// a class, whose program is not there or was not set. It takes no memory.
pub fn first_unknown(commands: &Commands, programs: &[Bytes], servers: &[Bytes]) -> Option<Fault>
    ensures { result ≡ least None (unknown commands.now programs.now servers.now) }
{
    let best = noted_terminals(None, commands, programs);
    noted_classes(best, commands, servers)
}

/// The first of the STARTs that may not be, in the text of the commands, whose first line has the
/// number `first_line`.
pub fn first_bad_start(
    alloc: Global,
    commands: &Commands,
    text: &[u8],
    first_line: u32,
) -> Result<Option<Fault>, Memory>
    requires size { length text.now ≤ longest_input }
    requires lines { first_line ≤ longest_input + 1 }
    ensures { IfOk result (λ best. best ≡ least None (bad_starts commands.now first_line (lines text.now))) }
{
    let mut best = None;
    let mut number = first_line;
    let mut rest = text;
    while let Some((line, behind)) = next_line(rest) {
        best = noted_line(alloc, best, commands, number, line)?;
        number += 1;
        rest = behind;
    }
    Ok(best)
}

/// The outcome of a pass that gives nothing else: nothing, or the refusal for its fault, with the same
/// line and code (docs/reference/DECK.md).
pub fn unless(fault: Option<Fault>) -> Result<(), Refusal>
    ensures { Gives (λ done. done) result (unless fault (tt {0})) }
{
    match fault {
        None => Ok(()),
        Some(fault) => Err(fault.into()),
    }
}

/// Whether the objects that the commands of a text name are there, and the STARTs may be. The text is
/// that of the commands, and its first line has the number `first_line`; `programs` and `servers` are
/// the names of the programs of terminals and of servers.
///
/// It refuses exactly with the first fault: 183 by line, for an ADD of a terminal whose TCP was not
/// added before it, and for one whose program is not there or was not set; else 185 by line, for a
/// START of what was not added before it or is started, and of a terminal whose TCP is not started.
pub fn objects(
    alloc: Global,
    commands: &Commands,
    text: &[u8],
    first_line: u32,
    programs: &[Bytes],
    servers: &[Bytes],
) -> Result<(), Refusal>
    requires size { length text.now ≤ longest_input }
    requires lines { (1 ≤ first_line) × (first_line ≤ longest_input + 1) }
    ensures { Gives (λ done. done) result (objects_of commands.now text.now first_line programs.now servers.now) }
{
    unless(first_unknown(commands, programs, servers))?;
    unless(first_bad_start(alloc, commands, text, first_line)?)
}
