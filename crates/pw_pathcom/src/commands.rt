use pw_base::bytes::Bytes;
use pw_base::list::List;

/// A TCP: its name, the line of its ADD, and that of its first START behind it, if there is one.
#[derive(Debug, Drop)]
pub struct Started {
    pub name: Bytes,
    pub line: u32,
    pub started: Option<u32>,
}

/// A server class: its name, its program and its number of processes, 1 to 16, the line of its ADD,
/// and that of its first START behind it. The program is empty where none was set.
#[derive(Debug, Drop)]
pub struct ClassCommand {
    pub name: Bytes,
    pub program: Bytes,
    pub processes: u32,
    pub line: u32,
    pub started: Option<u32>,
}

/// A terminal: its name, its TCP, its program and how often a unit of it may restart, 0 to 32,767,
/// the line of its ADD, and that of its first START behind it. TCP and program are empty where none
/// was set.
#[derive(Debug, Drop)]
pub struct TermCommand {
    pub name: Bytes,
    pub tcp: Bytes,
    pub program: Bytes,
    pub max_restarts: u32,
    pub line: u32,
    pub started: Option<u32>,
}

/// What the commands of a deck add, each kind in the order of its ADDs. Names are in upper case. What
/// is started has the line of its START.
#[derive(Debug, Drop)]
pub struct Commands {
    pub tcps: List<Started>,
    pub classes: List<ClassCommand>,
    pub terminals: List<TermCommand>,
}
