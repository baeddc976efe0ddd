use crate::cond::Cond;
use crate::copies::Duplicate;
use crate::operand::InstructionOperand;
use crate::place::StoragePlace;
use pw_base::bytes::Bytes;
use pw_base::list::List;
use pw_base::memory::Memory;
use std::alloc::Global;

/// What an arithmetic statement does with its first and its second operand.
#[derive(Clone, Copy, Debug, PartialEq, Eq)]
pub enum ArithmeticOperation {
    /// Adds the first to the second.
    Add,
    /// Subtracts the first from the second.
    Subtract,
    /// Multiplies the first by the second.
    Multiply,
    /// Divides the second by the first.
    Divide,
}

/// An operation, its operands, and the Number item that receives the result. On a size error that item
/// stays as it is.
#[derive(Debug, Drop)]
pub struct Arithmetic {
    pub operation: ArithmeticOperation,
    pub first: InstructionOperand,
    pub second: InstructionOperand,
    pub receiver: StoragePlace,
}

/// The instructions of a paragraph: the place of the first, and that of its `ParagraphEnd`.
#[derive(Clone, Copy, Debug, PartialEq, Eq)]
pub struct Turn {
    pub start: u32,
    pub end: u32,
}

/// A code of a reply, 0 to 9999, and the item to which a reply of this code goes.
#[derive(Clone, Copy, Debug, PartialEq, Eq)]
pub struct ReplyCode {
    pub number: u16,
    pub yields: StoragePlace,
}

/// One instruction of a program. Each but those of control counts one statement. A jump is relative:
/// it passes over so many of the instructions behind it. Behind the last instruction a program acts as at
/// `ExitProgram`, which counts nothing there.
#[derive(Debug, Drop)]
pub enum Instr {
    /// Control: goes on behind so many instructions.
    Jump(u32),
    /// IF: goes on where the condition holds, and else behind so many instructions.
    JumpUnless(Cond, u32),
    /// Control, the end of the paragraph whose first instruction stands at this place: one turn more
    /// where a PERFORM has any left, back to where the last one came from, or on into the next paragraph.
    ParagraphEnd(u32),
    /// Moves to each of the places, from left to right.
    Move {
        from: InstructionOperand,
        to: List<StoragePlace>,
    },
    /// Arithmetic without ON SIZE ERROR.
    Compute(Arithmetic),
    /// Arithmetic with ON SIZE ERROR: goes on on a size error, and else behind so many instructions.
    OnSizeError {
        arithmetic: Arithmetic,
        over: u32,
    },
    /// PERFORM of a paragraph.
    Perform(Turn),
    /// PERFORM so many TIMES.
    PerformTimes {
        turn: Turn,
        times: InstructionOperand,
    },
    /// Control, behind the `Exit` that counts PERFORM UNTIL: goes on where the condition holds, and else
    /// makes a turn and comes back.
    Until {
        turn: Turn,
        cond: Cond,
    },
    /// PERFORM ONE OF the paragraphs, DEPENDING ON a position from 1.
    PerformOneOf {
        turns: List<Turn>,
        position: InstructionOperand,
    },
    /// EXIT, and the beginning of PERFORM UNTIL: nothing but that it counts.
    Exit,
    /// EXIT PROGRAM.
    ExitProgram,
    /// STOP RUN.
    StopRun,
    /// DISPLAY of a screen, by its number, with BASE or without.
    DisplayScreen {
        screen: u32,
        base: bool,
    },
    /// DISPLAY on row 24.
    Display(InstructionOperand),
    /// ACCEPT for a screen, by its number, until one of at most 9,999 keys.
    Accept {
        screen: u32,
        keys: Bytes,
    },
    /// CALL of a program with arguments. Where it keeps the registers, the arguments' subscripts go by
    /// them as they were before the call also when the arguments are copied back.
    Call {
        program: u32,
        arguments: List<StoragePlace>,
        keeps: bool,
    },
    /// SEND of a message to a class, with at most 9,999 codes. It goes on behind the `NoCode` that follows it.
    Send {
        class: u32,
        message: InstructionOperand,
        codes: List<ReplyCode>,
    },
    /// Control, where a reply had none of the codes of the `Send` before it: the run fault 204.
    NoCode,
    /// BEGIN-TRANSACTION.
    Begin,
    /// END-TRANSACTION.
    End,
    /// ABORT-TRANSACTION.
    Abort,
    /// RESTART-TRANSACTION.
    Restart,
    /// READ $RECEIVE.
    Receive(StoragePlace),
    /// WRITE $RECEIVE.
    Reply(InstructionOperand),
    /// READ of a file, WITH LOCK where it is `locking`.
    Read {
        file: u32,
        locking: bool,
        key: InstructionOperand,
        into: StoragePlace,
    },
    /// READ NEXT of a file, WITH LOCK where it is `locking`.
    ReadNext {
        file: u32,
        locking: bool,
        after: InstructionOperand,
        into: StoragePlace,
    },
    /// WRITE to a file.
    Write {
        file: u32,
        from: InstructionOperand,
    },
    /// REWRITE in a file.
    Rewrite {
        file: u32,
        from: InstructionOperand,
    },
    /// DELETE from a file.
    Delete {
        file: u32,
        key: InstructionOperand,
    },
}

impl Duplicate for StoragePlace {
    fn copy(&self, _alloc: Global) -> Result<StoragePlace, Memory> {
        Ok(*self)
    }
}

impl Duplicate for Turn {
    fn copy(&self, _alloc: Global) -> Result<Turn, Memory> {
        Ok(*self)
    }
}

impl Duplicate for ReplyCode {
    fn copy(&self, _alloc: Global) -> Result<ReplyCode, Memory> {
        Ok(*self)
    }
}

impl Duplicate for Arithmetic {
    fn copy(&self, alloc: Global) -> Result<Arithmetic, Memory> {
        let first = self.first.copy(alloc)?;
        let second = self.second.copy(alloc)?;
        Ok(Arithmetic {
            operation: self.operation,
            first,
            second,
            receiver: self.receiver,
        })
    }
}

impl Duplicate for Instr {
    fn copy(&self, alloc: Global) -> Result<Instr, Memory> {
        match self {
            Instr::Jump(over) => Ok(Instr::Jump(*over)),
            Instr::JumpUnless(cond, over) => Ok(Instr::JumpUnless(cond.copy(alloc)?, *over)),
            Instr::ParagraphEnd(start) => Ok(Instr::ParagraphEnd(*start)),
            Instr::Move { from, to } => {
                let from = from.copy(alloc)?;
                let to = to.copy(alloc)?;
                Ok(Instr::Move { from, to })
            }
            Instr::Compute(arithmetic) => Ok(Instr::Compute(arithmetic.copy(alloc)?)),
            Instr::OnSizeError { arithmetic, over } => {
                let arithmetic = arithmetic.copy(alloc)?;
                Ok(Instr::OnSizeError {
                    arithmetic,
                    over: *over,
                })
            }
            Instr::Perform(turn) => Ok(Instr::Perform(*turn)),
            Instr::PerformTimes { turn, times } => {
                let times = times.copy(alloc)?;
                Ok(Instr::PerformTimes { turn: *turn, times })
            }
            Instr::Until { turn, cond } => {
                let cond = cond.copy(alloc)?;
                Ok(Instr::Until { turn: *turn, cond })
            }
            Instr::PerformOneOf { turns, position } => {
                let turns = turns.copy(alloc)?;
                let position = position.copy(alloc)?;
                Ok(Instr::PerformOneOf { turns, position })
            }
            Instr::Exit => Ok(Instr::Exit),
            Instr::ExitProgram => Ok(Instr::ExitProgram),
            Instr::StopRun => Ok(Instr::StopRun),
            Instr::DisplayScreen { screen, base } => Ok(Instr::DisplayScreen {
                screen: *screen,
                base: *base,
            }),
            Instr::Display(shown) => Ok(Instr::Display(shown.copy(alloc)?)),
            Instr::Accept { screen, keys } => {
                let keys = keys.copy(alloc)?;
                Ok(Instr::Accept {
                    screen: *screen,
                    keys,
                })
            }
            Instr::Call {
                program,
                arguments,
                keeps,
            } => {
                let arguments = arguments.copy(alloc)?;
                Ok(Instr::Call {
                    program: *program,
                    arguments,
                    keeps: *keeps,
                })
            }
            Instr::Send {
                class,
                message,
                codes,
            } => {
                let message = message.copy(alloc)?;
                let codes = codes.copy(alloc)?;
                Ok(Instr::Send {
                    class: *class,
                    message,
                    codes,
                })
            }
            Instr::NoCode => Ok(Instr::NoCode),
            Instr::Begin => Ok(Instr::Begin),
            Instr::End => Ok(Instr::End),
            Instr::Abort => Ok(Instr::Abort),
            Instr::Restart => Ok(Instr::Restart),
            Instr::Receive(into) => Ok(Instr::Receive(*into)),
            Instr::Reply(from) => Ok(Instr::Reply(from.copy(alloc)?)),
            Instr::Read {
                file,
                locking,
                key,
                into,
            } => {
                let key = key.copy(alloc)?;
                Ok(Instr::Read {
                    file: *file,
                    locking: *locking,
                    key,
                    into: *into,
                })
            }
            Instr::ReadNext {
                file,
                locking,
                after,
                into,
            } => {
                let after = after.copy(alloc)?;
                Ok(Instr::ReadNext {
                    file: *file,
                    locking: *locking,
                    after,
                    into: *into,
                })
            }
            Instr::Write { file, from } => {
                let from = from.copy(alloc)?;
                Ok(Instr::Write { file: *file, from })
            }
            Instr::Rewrite { file, from } => {
                let from = from.copy(alloc)?;
                Ok(Instr::Rewrite { file: *file, from })
            }
            Instr::Delete { file, key } => {
                let key = key.copy(alloc)?;
                Ok(Instr::Delete { file: *file, key })
            }
        }
    }
}
