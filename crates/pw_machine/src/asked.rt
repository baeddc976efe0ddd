//! What a program that stands at a verb asks.

ghost use Rattle.std.specs.Prelude.{◌≡◌, Some, length, IfOk};
ghost use Rattle.pw_code.specs.Places.{IsOperand};
ghost use Rattle.pw_code.specs.Valid.{IsValid};
ghost use Rattle.pw_code_meaning.specs.Sound.{IsSound};
ghost use Rattle.pw_code_meaning.specs.Steps as steps;
ghost use Rattle.pw_machine.specs.Config.{config_of, frame_of};
ghost use Rattle.pw_machine.specs.Stack.{CanDoInstr};

use crate::chars::read_chars;
use crate::registers::MachineRegisters;
use crate::stack::instr_at;
use crate::top::Top;
use pw_base::bytes::Bytes;
use pw_base::memory::Memory;
use pw_code::context::{Context, Course};
use pw_code::file::{FileCall, FileOp};
use pw_code::instr::Instr;
use pw_code::operand::InstructionOperand;
use pw_code::system::System;
use pw_code::verb::Verb;

/// The characters of an operand whose subscript was taken before.
fn chars_here(top: &Top, context: &Context, operand: &InstructionOperand) -> Result<Bytes, Memory>
    requires { IsOperand (length top.now.storage.items) operand.now }
    ensures { IfOk result (λ chars. chars ≡ steps.chars_here (config_of top.now context.now) operand.now) }
{
    let alloc = context.screen.cells.allocator();
    let registers = MachineRegisters::of(context);
    match read_chars(alloc, registers, top.storage.as_slice(), operand)? {
        Some(chars) => Ok(chars),
        None => Ok(Bytes::new(alloc)),
    }
}

/// An operation with a key.
fn by_key(
    top: &Top,
    context: &Context,
    file: u32,
    op: FileOp,
    key: &InstructionOperand,
) -> Result<Verb, Memory>
    requires { IsOperand (length top.now.storage.items) key.now }
    ensures { IfOk result (λ verb. verb ≡ steps.by_key file op (steps.chars_here (config_of top.now context.now) key.now)) }
{
    let key = chars_here(top, context, key)?;
    let content = Bytes::new(context.screen.cells.allocator());
    Ok(Verb::File(FileCall {
        file,
        op,
        key,
        content,
    }))
}

/// An operation with a record.
fn by_record(
    top: &Top,
    context: &Context,
    file: u32,
    op: FileOp,
    from: &InstructionOperand,
) -> Result<Verb, Memory>
    requires { IsOperand (length top.now.storage.items) from.now }
    ensures { IfOk result (λ verb. verb ≡ steps.by_record file op (steps.chars_here (config_of top.now context.now) from.now)) }
{
    let content = chars_here(top, context, from)?;
    let key = Bytes::new(context.screen.cells.allocator());
    Ok(Verb::File(FileCall {
        file,
        op,
        key,
        content,
    }))
}

/// What an instruction asks.
fn asked_by(system: &System, top: &Top, context: &Context, instr: &Instr) -> Result<Verb, Memory>
    requires { CanDoInstr system.now (frame_of top.now) instr.now }
    ensures { IfOk result (λ verb. verb ≡ steps.asked_by (Some instr.now) (config_of top.now context.now)) }
{
    match instr {
        Instr::DisplayScreen { .. } | Instr::Display(_) => Ok(Verb::Show),
        Instr::Accept { screen, .. } => Ok(Verb::Accept(*screen)),
        Instr::Send { class, message, .. } => {
            let message = chars_here(top, context, message)?;
            Ok(Verb::Send {
                class: *class,
                message,
            })
        }
        Instr::Begin => Ok(Verb::Begin),
        Instr::End => Ok(Verb::End),
        Instr::Abort => Ok(Verb::Drop),
        Instr::Restart => Ok(Verb::Redo),
        Instr::Reply(from) => Ok(Verb::Reply(chars_here(top, context, from)?)),
        Instr::Read {
            file,
            locking,
            key,
            ..
        } => {
            let op = if *locking {
                FileOp::ReadLock
            } else {
                FileOp::Read
            };
            by_key(top, context, *file, op, key)
        }
        Instr::ReadNext {
            file,
            locking,
            after,
            ..
        } => {
            let op = if *locking {
                FileOp::NextLock
            } else {
                FileOp::Next
            };
            by_key(top, context, *file, op, after)
        }
        Instr::Write { file, from } => by_record(top, context, *file, FileOp::Write, from),
        Instr::Rewrite { file, from } => by_record(top, context, *file, FileOp::Rewrite, from),
        Instr::Delete { file, key } => by_key(top, context, *file, FileOp::Delete, key),
        _ => Ok(Verb::Stop),
    }
}

/// The verb of a program that stands at one.
pub fn asked(system: &System, top: &Top, context: &Context) -> Result<Verb, Memory>
    requires valid { IsValid system.now }
    requires sound { IsSound system.now (config_of top.now context.now) }
    ensures { IfOk result (λ verb. verb ≡ steps.verb_of system.now (config_of top.now context.now)) }
{
    match context.course {
        Course::Fault(code) => Ok(Verb::Fault(code)),
        Course::Advisory => Ok(Verb::Show),
        Course::Instruction => match instr_at(system, top) {
            Some(instr) => asked_by(system, top, context, instr),
            None => Ok(Verb::Stop),
        },
    }
}
