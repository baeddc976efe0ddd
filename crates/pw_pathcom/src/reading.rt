ghost use Rattle.std.specs.Prelude.{◌≡◌, map};
ghost use Rattle.pw_base.specs.First.{Gives};
ghost use Rattle.pw_pathcom.specs.declared.verb.Object.TheVariants.{Tcp, Term, Server};
ghost use Rattle.pw_pathcom.specs.Reading.{named, checked, ranged, admitted, has_tcp, has_class, has_terminal, added, first_start, start_tcp, start_class, start_terminal, started, command_taken, is_comment, line_read, starting};

use crate::commands::{ClassCommand, Commands, Started, TermCommand};
use crate::verb::{CommandVerb, Object, command_of};
use pw_base::bytes::Bytes;
use pw_base::fault::Refusal;
use pw_base::fault_code::FaultCode;
use pw_base::list::List;
use pw_code::system::{MAX_CLASSES, MAX_PROCESSES, MAX_RESTARTS, MAX_TCPS, MAX_TERMINALS};
use pw_sections::word::{expect_name, is_blank, number_in};
use std::alloc::Global;
use std::mem::replace;

/// How often a unit may restart where no command says it.
const DEFAULT_RESTARTS: u32 = 5;

/// What was set last. A name that was not set is empty.
#[derive(Debug, Drop)]
pub struct Values {
    pub tcp: Bytes,
    pub initial: Bytes,
    pub max_restarts: u32,
    pub program: Bytes,
    pub processes: u32,
}

/// What was added and set so far.
#[derive(Debug, Drop)]
pub struct CommandReading {
    pub commands: Commands,
    pub values: Values,
}

/// The name that an operand is.
fn named(alloc: Global, line: u32, operand: &[u8]) -> Result<Bytes, Refusal>
    ensures { Gives (λ name. name) result (named line operand.now) }
{
    expect_name(alloc, line, FaultCode::BadCommand, operand)
}

/// Refuses a number that is not in its range.
fn checked(line: u32, low: u32, high: u32, number: u32) -> Result<u32, Refusal>
    ensures { Gives (λ n. n) result (checked line low high number) }
{
    if number >= low && number <= high {
        Ok(number)
    } else {
        Err(Refusal::At {
            line,
            code: FaultCode::OutOfRange,
        })
    }
}

/// The number that an operand is, in its range.
fn ranged(line: u32, low: u32, high: u32, operand: &[u8]) -> Result<u32, Refusal>
    ensures { Gives (λ n. n) result (ranged line low high operand.now) }
{
    match number_in(operand) {
        Some(number) => checked(line, low, high, number),
        None => Err(Refusal::At {
            line,
            code: FaultCode::BadCommand,
        }),
    }
}

/// Refuses an ADD of a name that is there, and one where there are as many as may be.
fn admitted(line: u32, is_there: bool, is_full: bool) -> Result<(), Refusal>
    ensures { Gives (λ done. done) result (admitted line is_there is_full) }
{
    if is_there {
        Err(Refusal::At {
            line,
            code: FaultCode::AddedTwice,
        })
    } else if is_full {
        Err(Refusal::At {
            line,
            code: FaultCode::OutOfRange,
        })
    } else {
        Ok(())
    }
}

/// The line of the first START, where this one stands on a line.
fn first_start(line: u32, started: Option<u32>) -> Option<u32>
    ensures { result ≡ first_start line started }
{
    match started {
        Some(before) => Some(before),
        None => Some(line),
    }
}

impl Started {
    /// Starts it, if it has the name.
    fn start(&mut self, line: u32, name: &[u8])
        ensures { self.new ≡ start_tcp line name.now self.old }
    {
        if self.name.as_slice() == name {
            self.started = first_start(line, self.started);
        }
    }
}

impl ClassCommand {
    /// Starts it, if it has the name.
    fn start(&mut self, line: u32, name: &[u8])
        ensures { self.new ≡ start_class line name.now self.old }
    {
        if self.name.as_slice() == name {
            self.started = first_start(line, self.started);
        }
    }
}

impl TermCommand {
    /// Starts it, if it has the name.
    fn start(&mut self, line: u32, name: &[u8])
        ensures { self.new ≡ start_terminal line name.now self.old }
    {
        if self.name.as_slice() == name {
            self.started = first_start(line, self.started);
        }
    }
}

/// Starts the TCP of a name.
fn start_tcps(tcps: &mut Vec<Started>, line: u32, name: &[u8])
    ensures { tcps.new.items ≡ map (start_tcp line name.now) tcps.old.items }
{
    for tcp in tcps.iter_mut() {
        tcp.start(line, name);
    }
}

/// Starts the class of a name.
fn start_classes(classes: &mut Vec<ClassCommand>, line: u32, name: &[u8])
    ensures { classes.new.items ≡ map (start_class line name.now) classes.old.items }
{
    for class in classes.iter_mut() {
        class.start(line, name);
    }
}

/// Starts the terminal of a name.
fn start_terminals(terminals: &mut Vec<TermCommand>, line: u32, name: &[u8])
    ensures { terminals.new.items ≡ map (start_terminal line name.now) terminals.old.items }
{
    for terminal in terminals.iter_mut() {
        terminal.start(line, name);
    }
}

impl Commands {
    /// Whether a TCP of the name was added.
    fn has_tcp(&self, name: &[u8]) -> bool
        ensures { result ≡ has_tcp self.now name.now }
    {
        self.tcps
            .as_slice()
            .iter()
            .any(|tcp| tcp.name.as_slice() == name)
    }

    /// Whether a class of the name was added.
    fn has_class(&self, name: &[u8]) -> bool
        ensures { result ≡ has_class self.now name.now }
    {
        self.classes
            .as_slice()
            .iter()
            .any(|class| class.name.as_slice() == name)
    }

    /// Whether a terminal of the name was added.
    fn has_terminal(&self, name: &[u8]) -> bool
        ensures { result ≡ has_terminal self.now name.now }
    {
        self.terminals
            .as_slice()
            .iter()
            .any(|terminal| terminal.name.as_slice() == name)
    }

    /// START of an object of a name. It takes no memory.
    fn start(&mut self, alloc: Global, line: u32, object: Object, name: &[u8])
        ensures { self.new ≡ started line self.old object name.now }
    {
        match object {
            Object::Tcp => {
                let mut tcps = replace(&mut self.tcps, List::new(alloc)).into_vec();
                start_tcps(&mut tcps, line, name);
                self.tcps = List::from_vec(tcps);
            }
            Object::Server => {
                let mut classes = replace(&mut self.classes, List::new(alloc)).into_vec();
                start_classes(&mut classes, line, name);
                self.classes = List::from_vec(classes);
            }
            Object::Term => {
                let mut terminals = replace(&mut self.terminals, List::new(alloc)).into_vec();
                start_terminals(&mut terminals, line, name);
                self.terminals = List::from_vec(terminals);
            }
        }
    }
}

impl CommandReading {
    /// Nothing is added, and each value is its default.
    pub fn new(alloc: Global) -> CommandReading
        ensures { result ≡ starting }
    {
        CommandReading {
            commands: Commands {
                tcps: List::new(alloc),
                classes: List::new(alloc),
                terminals: List::new(alloc),
            },
            values: Values {
                tcp: Bytes::new(alloc),
                initial: Bytes::new(alloc),
                max_restarts: DEFAULT_RESTARTS,
                program: Bytes::new(alloc),
                processes: 1,
            },
        }
    }

    /// ADD TCP.
    fn add_tcp(&mut self, line: u32, name: Bytes) -> Result<(), Refusal>
        ensures { Gives (λ done. self.new) result (added line self.old Tcp name) }
    {
        let tcps = &self.commands.tcps;
        let is_full = tcps.len() >= MAX_TCPS as usize;
        admitted(line, self.commands.has_tcp(name.as_slice()), is_full)?;
        self.commands.tcps.push(Started {
            name,
            line,
            started: None,
        })?;
        Ok(())
    }

    /// ADD SERVER.
    fn add_class(&mut self, alloc: Global, line: u32, name: Bytes) -> Result<(), Refusal>
        ensures { Gives (λ done. self.new) result (added line self.old Server name) }
    {
        let is_full = self.commands.classes.len() >= MAX_CLASSES as usize;
        admitted(line, self.commands.has_class(name.as_slice()), is_full)?;
        let program = self.values.program.copy(alloc)?;
        self.commands.classes.push(ClassCommand {
            name,
            program,
            processes: self.values.processes,
            line,
            started: None,
        })?;
        Ok(())
    }

    /// ADD TERM.
    fn add_terminal(&mut self, alloc: Global, line: u32, name: Bytes) -> Result<(), Refusal>
        ensures { Gives (λ done. self.new) result (added line self.old Term name) }
    {
        let is_full = self.commands.terminals.len() >= MAX_TERMINALS as usize;
        admitted(line, self.commands.has_terminal(name.as_slice()), is_full)?;
        let tcp = self.values.tcp.copy(alloc)?;
        let program = self.values.initial.copy(alloc)?;
        self.commands.terminals.push(TermCommand {
            name,
            tcp,
            program,
            max_restarts: self.values.max_restarts,
            line,
            started: None,
        })?;
        Ok(())
    }

    /// ADD of an object of a name.
    fn add(&mut self, alloc: Global, line: u32, object: Object, name: Bytes) -> Result<(), Refusal>
        ensures { Gives (λ done. self.new) result (added line self.old object name) }
    {
        match object {
            Object::Tcp => self.add_tcp(line, name),
            Object::Server => self.add_class(alloc, line, name),
            Object::Term => self.add_terminal(alloc, line, name),
        }
    }

    /// Takes a command.
    fn take(
        &mut self,
        alloc: Global,
        line: u32,
        verb: CommandVerb,
        operand: &[u8],
    ) -> Result<(), Refusal>
        ensures { Gives (λ done. self.new) result (command_taken line self.old verb operand.now) }
    {
        match verb {
            CommandVerb::SetTcp => self.values.tcp = named(alloc, line, operand)?,
            CommandVerb::SetInitial => self.values.initial = named(alloc, line, operand)?,
            CommandVerb::SetRestarts => {
                self.values.max_restarts = ranged(line, 0, MAX_RESTARTS, operand)?
            }
            CommandVerb::SetProgram => self.values.program = named(alloc, line, operand)?,
            CommandVerb::SetProcesses => {
                self.values.processes = ranged(line, 1, MAX_PROCESSES, operand)?
            }
            CommandVerb::Add(object) => {
                let name = named(alloc, line, operand)?;
                return self.add(alloc, line, object, name);
            }
            CommandVerb::Start(object) => {
                let name = named(alloc, line, operand)?;
                self.commands.start(alloc, line, object, name.as_slice());
            }
        }
        Ok(())
    }

    /// Reads a line of the section: an empty line and a comment say nothing. After an `Err` it is
    /// not said what was taken.
    pub fn read_line(&mut self, alloc: Global, number: u32, line: &[u8]) -> Result<(), Refusal>
        ensures { Gives (λ done. self.new) result (line_read number self.old line.now) }
    {
        if is_comment(line) || is_blank(line) {
            return Ok(());
        }
        match command_of(line) {
            Some((verb, operand)) => self.take(alloc, number, verb, operand),
            None => Err(Refusal::At {
                line: number,
                code: FaultCode::BadCommand,
            }),
        }
    }
}

/// Whether a line is a comment: it begins with `*`.
fn is_comment(line: &[u8]) -> bool
    ensures { result ≡ is_comment line.now }
{
    matches!(line, [b'*', ..])
}
