ghost use Rattle.std.specs.Prelude.{◌≡◌, ◌↔◌, IfOk, IsTrue};
ghost use Rattle.pw_code.specs.Courses.{is_advisory};

use crate::copies::Duplicate;
use crate::same::Same;
use crate::screen::ScreenImage;
use pw_base::bytes::Bytes;
use pw_base::list::List;
use pw_base::memory::Memory;
use std::alloc::Global;

/// Where a PERFORM that is active comes back to: the place at which the program goes on, that of the end of
/// the paragraph, and how many turns are left behind the present one.
#[derive(Clone, Copy, Debug, PartialEq, Eq)]
pub struct Return {
    pub resume: u32,
    pub until: u32,
    pub turns: u64,
}

/// A program that is active.
#[derive(Debug, Drop)]
pub struct Frame {
    /// The number of its code: those of terminals come first, and those of servers behind them.
    pub program: u16,
    /// The place of its next instruction. Where it called another program, that of the `Call`.
    pub at: u32,
    /// The characters of its items, and behind them the registers that its `Call` keeps, or the message of a
    /// server.
    pub storage: Bytes,
    /// Its active PERFORMs, the last one behind the others: at most 64.
    pub returns: List<Return>,
}

/// How programs at work go on.
#[derive(Clone, Copy, Debug, PartialEq, Eq)]
pub enum Course {
    /// With the next instruction.
    Instruction,
    /// With an advisory, which is shown before the same entry is awaited again.
    Advisory,
    /// Not at all: they stand at a run fault of this code, or are to tell that of a server.
    Fault(u16),
}

/// The programs of a terminal or of a server at work. It stands at an answer, from where it can run on, or
/// at the verb that it asks next.
#[derive(Debug, Drop)]
pub struct Context {
    /// TERMINATION-STATUS.
    pub termination: u16,
    /// RESTART-COUNTER.
    pub restarts: u32,
    /// FILE-STATUS.
    pub file_status: u16,
    /// The phase of refresh numbers.
    pub phase: u32,
    /// The attempt of refresh numbers.
    pub attempt: u32,
    /// How often the screen was shown since phase or attempt last changed.
    pub shown: u32,
    /// The entry lines that were taken.
    pub entries: u32,
    /// The units that have ended.
    pub units: u32,
    /// Whether a transaction is open.
    pub in_unit: bool,
    /// How it goes on.
    pub course: Course,
    /// Whether it stands at its next verb.
    pub at_verb: bool,
    /// The statements and turns that were counted.
    pub count: u32,
    pub screen: ScreenImage,
    /// The active programs, the one that was called last behind the others: 1 to 9.
    pub frames: List<Frame>,
}

impl Duplicate for Return {
    fn copy(&self, _alloc: Global) -> Result<Return, Memory> {
        Ok(*self)
    }
}

impl Duplicate for Frame {
    fn copy(&self, alloc: Global) -> Result<Frame, Memory> {
        let storage = self.storage.copy(alloc)?;
        let returns = self.returns.copy(alloc)?;
        Ok(Frame {
            program: self.program,
            at: self.at,
            storage,
            returns,
        })
    }
}

impl Same for Return {
    fn is_same(&self, other: &Return) -> bool {
        *self == *other
    }
}

impl Same for Frame {
    fn is_same(&self, other: &Frame) -> bool {
        self.program == other.program
            && self.at == other.at
            && self.storage.is_same(&other.storage)
            && self.returns.is_same(&other.returns)
    }
}

impl Course {
    /// Whether it is an advisory that is to be shown.
    pub fn is_advisory(self) -> bool
        ensures { result ≡ is_advisory self }
    {
        matches!(self, Course::Advisory)
    }
}

impl Context {
    ghost use Rattle.pw_code.specs.Contexts.{HasSameRegisters, HasSameCounts, StandsSame};

    /// An equal value.
    pub fn copy(&self, alloc: Global) -> Result<Context, Memory>
        ensures { IfOk result (λ context. context ≡ self.now) }
    {
        let screen = self.screen.copy(alloc)?;
        let frames = self.frames.copy(alloc)?;
        Ok(Context {
            termination: self.termination,
            restarts: self.restarts,
            file_status: self.file_status,
            phase: self.phase,
            attempt: self.attempt,
            shown: self.shown,
            entries: self.entries,
            units: self.units,
            in_unit: self.in_unit,
            course: self.course,
            at_verb: self.at_verb,
            count: self.count,
            screen,
            frames,
        })
    }

    /// An equal value, in memory of the same allocator.
    pub fn duplicate(&self) -> Result<Context, Memory>
        ensures { IfOk result (λ context. context ≡ self.now) }
    {
        self.copy(self.screen.cells.allocator())
    }

    /// Whether the registers are equal.
    fn has_same_registers(&self, other: &Context) -> bool
        ensures { IsTrue result ↔ HasSameRegisters self.now other.now }
    {
        self.termination == other.termination
            && self.restarts == other.restarts
            && self.file_status == other.file_status
    }

    /// Whether the counts of the path are equal.
    fn has_same_counts(&self, other: &Context) -> bool
        ensures { IsTrue result ↔ HasSameCounts self.now other.now }
    {
        self.phase == other.phase
            && self.attempt == other.attempt
            && self.shown == other.shown
            && self.entries == other.entries
            && self.units == other.units
    }

    /// Whether the two stand alike.
    fn stands_same(&self, other: &Context) -> bool
        ensures { IsTrue result ↔ StandsSame self.now other.now }
    {
        self.in_unit == other.in_unit
            && self.course == other.course
            && self.at_verb == other.at_verb
            && self.count == other.count
    }

    /// Whether the two are equal.
    pub fn is_same(&self, other: &Context) -> bool
        ensures { IsTrue result ↔ (self.now ≡ other.now) }
    {
        self.has_same_registers(other)
            && self.has_same_counts(other)
            && self.stands_same(other)
            && self.screen.cells() == other.screen.cells()
            && self.frames.is_same(&other.frames)
    }
}
