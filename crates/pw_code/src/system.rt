ghost use Rattle.std.specs.Prelude.{◌≡◌, IfOk};

use crate::code::Code;
use crate::copies::Duplicate;
use crate::entry::EntryLine;
use crate::field::ScreenTable;
use crate::file::FileInfo;
use crate::lock::LockRule;
use pw_base::bytes::Bytes;
use pw_base::list::List;
use pw_base::memory::Memory;
use std::alloc::Global;

/// The most programs of terminals that a system has.
pub const MAX_PROGRAMS: u32 = 32;

/// The most programs of servers that a system has.
pub const MAX_SERVERS: u32 = 32;

/// The most server classes that a system has.
pub const MAX_CLASSES: u32 = 16;

/// The most processes that a server class has.
pub const MAX_PROCESSES: u32 = 16;

/// The most files that a system has.
pub const MAX_FILES: u32 = 16;

/// The most pairs that a system has.
pub const MAX_TCPS: u32 = 8;

/// The most terminals that a system has.
pub const MAX_TERMINALS: u32 = 128;

/// The most restarts that a terminal's units may have.
pub const MAX_RESTARTS: u32 = 32_767;

/// The most entry lines that a terminal has.
pub const MAX_ENTRY_LINES: u32 = 4_096;

/// A started terminal.
#[derive(Debug, Drop)]
pub struct TermInfo {
    pub name: Bytes,
    /// The number of its pair.
    pub tcp: u32,
    /// The number of its first program.
    pub program: u32,
    /// How often a unit of it may restart, its MAXTMFRESTARTS: 0 to `MAX_RESTARTS`.
    pub max_restarts: u32,
    /// What is keyed in at it, in order: at most `MAX_ENTRY_LINES` lines.
    pub entries: List<EntryLine>,
}

impl Duplicate for TermInfo {
    fn copy(&self, alloc: Global) -> Result<TermInfo, Memory> {
        Ok(TermInfo {
            name: self.name.copy(alloc)?,
            tcp: self.tcp,
            program: self.program,
            max_restarts: self.max_restarts,
            entries: self.entries.copy(alloc)?,
        })
    }
}

/// A server class.
#[derive(Debug, Drop)]
pub struct ClassInfo {
    pub name: Bytes,
    /// The number of its program among those of servers.
    pub server: u32,
    /// How many processes it has: 1 to `MAX_PROCESSES`.
    pub processes: u32,
}

impl Duplicate for ClassInfo {
    fn copy(&self, alloc: Global) -> Result<ClassInfo, Memory> {
        Ok(ClassInfo {
            name: self.name.copy(alloc)?,
            server: self.server,
            processes: self.processes,
        })
    }
}

/// What a deck says. Programs, screens, classes, files, pairs and terminals are named by their numbers, from 0,
/// in order of declaration; screens are numbered through all programs.
#[derive(Debug, Drop)]
pub struct System {
    /// The programs of terminals.
    pub programs: List<Code>,
    /// The programs of servers.
    pub servers: List<Code>,
    /// The screens of the programs of terminals.
    pub screens: List<ScreenTable>,
    pub classes: List<ClassInfo>,
    pub files: List<FileInfo>,
    /// The names of the pairs.
    pub tcps: List<Bytes>,
    pub terminals: List<TermInfo>,
    pub rule: LockRule,
}

impl System {
    /// An equal value.
    pub fn copy(&self, alloc: Global) -> Result<System, Memory>
        ensures { IfOk result (λ system. system ≡ self.now) }
    {
        Ok(System {
            programs: self.programs.copy(alloc)?,
            servers: self.servers.copy(alloc)?,
            screens: self.screens.copy(alloc)?,
            classes: self.classes.copy(alloc)?,
            files: self.files.copy(alloc)?,
            tcps: self.tcps.copy(alloc)?,
            terminals: self.terminals.copy(alloc)?,
            rule: self.rule,
        })
    }
}
