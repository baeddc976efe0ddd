//! One step of compiled code.

ghost use Rattle.std.specs.Prelude.{◌≡◌, true, false, Some, slice_get, IfOk};
ghost use Rattle.pw_code.specs.Valid.{IsValid};
ghost use Rattle.pw_code_meaning.specs.Config.{code_at};
ghost use Rattle.pw_code_meaning.specs.Sound.{IsSound};
ghost use Rattle.pw_code_meaning.specs.Steps as steps;
ghost use Rattle.pw_machine.specs.Config.{config_of, frame_of};
ghost use Rattle.pw_machine.specs.Stack.{CanDoInstr, StaysAt, is_at_once, stays_at_work};

use crate::arms::{
    begin_arithmetic, begin_branch, begin_guarded, begin_move, perform_one_of, perform_times,
};
use crate::asks::{display, display_screen, operate, read_record, receive, send};
use crate::calls::{call, leave};
use crate::conditions::holds;
use crate::stack::instr_at;
use crate::top::Top;
use crate::turns::{count, end_paragraph, fault, go_over, tested, turn};
use crate::verbs::{ask, ask_in_unit, begin, stop};
use pw_base::memory::Memory;
use pw_code::context::{Context, Course};
use pw_code::instr::Instr;
use pw_code::system::System;

/// Does a statement that has begun and that leaves the same programs at work.
fn does_here(
    system: &System,
    instr: &Instr,
    top: &mut Top,
    context: &mut Context,
) -> Result<(), Memory>
    requires stays { stays_at_work instr.now ≡ true }
    requires statement { is_at_once instr.now ≡ false }
    requires sound { IsSound system.now (config_of top.old context.old) }
    requires can { CanDoInstr system.now (frame_of top.old) instr.now }
    ensures config { IfOk result (λ _. config_of top.new context.new ≡ steps.does system.now instr.now (config_of top.old context.old)) }
    ensures stays { IfOk result (λ _. StaysAt (config_of top.old context.old) (config_of top.new context.new)) }
{
    match instr {
        Instr::Perform(paragraph) => turn(top, context, top.at + 1, *paragraph, 0)?,
        Instr::PerformTimes { turn, times } => perform_times(top, context, *turn, times)?,
        Instr::PerformOneOf { turns, position } => {
            perform_one_of(top, context, turns.as_slice(), position)?
        }
        Instr::Exit => go_over(top, 0),
        Instr::StopRun => stop(system, top, context),
        Instr::DisplayScreen { screen, base } => {
            display_screen(system, top, context, *screen, *base)
        }
        Instr::Display(shown) => display(top, context, shown)?,
        Instr::Accept { .. } => ask(context),
        Instr::Send { message, codes, .. } => send(top, context, message, codes.as_slice()),
        Instr::Begin => begin(context),
        Instr::End | Instr::Abort | Instr::Restart => ask_in_unit(context),
        Instr::Receive(into) => receive(system, top, context, *into),
        Instr::Read { key, into, .. } => read_record(top, context, key, *into),
        Instr::ReadNext { after, into, .. } => read_record(top, context, after, *into),
        Instr::Reply(from) | Instr::Write { from, .. } | Instr::Rewrite { from, .. } => {
            operate(top, context, from)
        }
        Instr::Delete { key, .. } => operate(top, context, key),
        Instr::Jump(_)
        | Instr::JumpUnless(..)
        | Instr::ParagraphEnd(_)
        | Instr::Until { .. }
        | Instr::NoCode
        | Instr::Move { .. }
        | Instr::Compute(_)
        | Instr::OnSizeError { .. }
        | Instr::Call { .. }
        | Instr::ExitProgram => {}
    }
    Ok(())
}

/// Does a statement that has begun.
fn does(system: &System, instr: &Instr, top: &mut Top, context: &mut Context) -> Result<(), Memory>
    requires valid { IsValid system.now }
    requires sound { IsSound system.now (config_of top.old context.old) }
    requires at { slice_get (code_at system.now top.old.program).instrs top.old.at ≡ Some instr.now }
    requires statement { is_at_once instr.now ≡ false }
    requires can { CanDoInstr system.now (frame_of top.old) instr.now }
    ensures config { IfOk result (λ _. config_of top.new context.new ≡ steps.does system.now instr.now (config_of top.old context.old)) }
    ensures sound { IfOk result (λ _. IsSound system.now (config_of top.new context.new)) }
{
    match instr {
        Instr::Call {
            program,
            arguments,
            keeps,
        } => call(system, top, context, *program, arguments.as_slice(), *keeps),
        Instr::ExitProgram => leave(system, top, context),
        _ => does_here(system, instr, top, context),
    }
}

/// A statement begins, and is done where not too many have begun.
#[inline(never)]
fn begin_statement(
    system: &System,
    instr: &Instr,
    top: &mut Top,
    context: &mut Context,
) -> Result<(), Memory>
    requires valid { IsValid system.now }
    requires sound { IsSound system.now (config_of top.old context.old) }
    requires at { slice_get (code_at system.now top.old.program).instrs top.old.at ≡ Some instr.now }
    requires can { CanDoInstr system.now (frame_of top.old) instr.now }
    requires statement { is_at_once instr.now ≡ false }
    ensures config { IfOk result (λ _. config_of top.new context.new ≡ steps.act system.now (Some instr.now) (config_of top.old context.old)) }
    ensures sound { IfOk result (λ _. IsSound system.now (config_of top.new context.new)) }
{
    if count(context) {
        does(system, instr, top, context)?;
    }
    Ok(())
}

/// One instruction.
fn act(system: &System, instr: &Instr, top: &mut Top, context: &mut Context) -> Result<(), Memory>
    requires valid { IsValid system.now }
    requires sound { IsSound system.now (config_of top.old context.old) }
    requires at { slice_get (code_at system.now top.old.program).instrs top.old.at ≡ Some instr.now }
    requires can { CanDoInstr system.now (frame_of top.old) instr.now }
    ensures config { IfOk result (λ _. config_of top.new context.new ≡ steps.act system.now (Some instr.now) (config_of top.old context.old)) }
    ensures sound { IfOk result (λ _. IsSound system.now (config_of top.new context.new)) }
{
    match instr {
        Instr::Jump(over) => go_over(top, *over),
        Instr::ParagraphEnd(start) => end_paragraph(top, context, *start),
        Instr::Until { turn, cond } => {
            let found = holds(context, top.storage.as_slice(), cond);
            tested(top, context, *turn, found)?;
        }
        Instr::NoCode => fault(context, 204),
        Instr::JumpUnless(cond, over) => begin_branch(top, context, cond, *over),
        Instr::Move { from, to } => begin_move(top, context, from, to.as_slice())?,
        Instr::Compute(arithmetic) => begin_arithmetic(top, context, arithmetic),
        Instr::OnSizeError { arithmetic, over } => {
            begin_guarded(top, context, arithmetic, *over)
        }
        _ => begin_statement(system, instr, top, context)?,
    }
    Ok(())
}

/// One step: an advisory is shown and a server's run fault told before the program goes on.
pub fn step(system: &System, top: &mut Top, context: &mut Context) -> Result<(), Memory>
    requires valid { IsValid system.now }
    requires sound { IsSound system.now (config_of top.old context.old) }
    ensures config { IfOk result (λ _. config_of top.new context.new ≡ steps.step system.now (config_of top.old context.old)) }
    ensures sound { IfOk result (λ _. IsSound system.now (config_of top.new context.new)) }
{
    match context.course {
        Course::Instruction => match instr_at(system, top) {
            Some(instr) => act(system, instr, top, context),
            None => leave(system, top, context),
        },
        Course::Advisory | Course::Fault(_) => {
            ask(context);
            Ok(())
        }
    }
}
