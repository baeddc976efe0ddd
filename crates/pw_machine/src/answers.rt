//! Answers, put into the program at work.

ghost use Rattle.std.specs.Prelude.{◌≡◌, ◌<◌, ◌≤◌, ◌+◌, ◌^◌, List, Option, Some, None, length, All};
ghost use Rattle.pw_code.specs.Instrs.{IsReplyCode, IsScreen, screen_at};
ghost use Rattle.pw_code.specs.Places.{IsPlace};
ghost use Rattle.pw_code.specs.Valid.{IsValid};
ghost use Rattle.pw_code.specs.declared.context.Frame.{Frame};
ghost use Rattle.pw_code_meaning.specs.Answers as answers;
ghost use Rattle.pw_code_meaning.specs.Config.{on};
ghost use Rattle.pw_code_meaning.specs.Reading as reading;
ghost use Rattle.pw_code_meaning.specs.Sound.{IsFrame};
ghost use Rattle.pw_machine.specs.Config.{config_with, frame_of};
ghost use Rattle.pw_machine.specs.Stack.{CanDoInstr, HasRoom};
ghost use Rattle.pw_machine.specs.Views.{registers_by};

use crate::entries::entered;
use crate::moves::move_text;
use crate::reading::spot_of;
use crate::registers::MachineRegisters;
use crate::replies::replied;
use crate::stack::instr_at;
use crate::top::Top;
use crate::turns::go_over;
use crate::units::{answered, shown, unit_begun, unit_ended};
use pw_base::bytes::Bytes;
use pw_code::context::{Context, Course};
use pw_code::instr::{Instr, ReplyCode};
use pw_code::place::StoragePlace;
use pw_code::system::System;
use pw_code::verb::Answer;

/// Goes on with what a terminal's verb was answered.
fn pass(top: &mut Top, context: &mut Context)
    requires place { top.old.at + 1 < 2 ^ 32 }
    ensures config { (frames : List Frame) → config_with frames top.new context.new
        ≡ answers.passed (config_with frames top.old context.old) }
    ensures size { length top.new.storage.items ≡ length top.old.storage.items }
    ensures program { top.new.program ≡ top.old.program }
{
    answered(context);
    go_over(top, 0);
}

/// Goes on with what a server's verb was answered.
fn pass_file(top: &mut Top, context: &mut Context)
    requires place { top.old.at + 1 < 2 ^ 32 }
    ensures config { (frames : List Frame) → config_with frames top.new context.new
        ≡ answers.file_passed (config_with frames top.old context.old) }
    ensures size { length top.new.storage.items ≡ length top.old.storage.items }
    ensures program { top.new.program ≡ top.old.program }
{
    context.at_verb = false;
    go_over(top, 0);
}

/// The answer to a DISPLAY.
fn put_shown(top: &mut Top, context: &mut Context)
    requires place { top.old.at + 1 < 2 ^ 32 }
    requires room { HasRoom context.old }
    ensures config { (frames : List Frame) → config_with frames top.new context.new
        ≡ on (answers.shown (config_with frames top.old context.old)) }
    ensures size { length top.new.storage.items ≡ length top.old.storage.items }
    ensures program { top.new.program ≡ top.old.program }
{
    shown(context);
    go_over(top, 0);
}

/// The answer to an ACCEPT.
fn put_entry(
    system: &System,
    top: &mut Top,
    context: &mut Context,
    screen: u32,
    keys: &[u8],
    answer: &Answer,
)
    requires screen { IsScreen system.now (length top.old.storage.items) screen }
    requires keys { length keys.now ≤ 9999 }
    requires place { top.old.at + 1 < 2 ^ 32 }
    requires room { HasRoom context.old }
    ensures config { (frames : List Frame) → config_with frames top.new context.new
        ≡ answers.entry_put (screen_at system.now screen) keys.now answer.now (config_with frames top.old context.old) }
    ensures size { length top.new.storage.items ≡ length top.old.storage.items }
    ensures program { top.new.program ≡ top.old.program }
{
    match answer {
        Answer::Entry(line) => {
            let table = &system.screens.as_slice()[screen as usize];
            entered(table, keys, top, context, line);
        }
        _ => pass(top, context),
    }
}

/// The answer to a SEND.
fn put_reply(top: &mut Top, context: &mut Context, codes: &[ReplyCode], answer: &Answer)
    requires codes { All (IsReplyCode (length top.old.storage.items)) codes.now }
    requires few { length codes.now ≤ 9999 }
    requires place { top.old.at + 2 < 2 ^ 32 }
    requires room { HasRoom context.old }
    ensures config { (frames : List Frame) → config_with frames top.new context.new
        ≡ answers.reply_put codes.now answer.now (config_with frames top.old context.old) }
    ensures size { length top.new.storage.items ≡ length top.old.storage.items }
    ensures program { top.new.program ≡ top.old.program }
{
    match answer {
        Answer::Replied(reply) => replied(top, context, codes, reply.as_slice()),
        Answer::Failed(code) => {
            answered(context);
            context.course = Course::Fault(*code);
        }
        _ => {
            answered(context);
            go_over(top, 1);
        }
    }
}

/// The answer to BEGIN-TRANSACTION.
fn put_begun(top: &mut Top, context: &mut Context, answer: &Answer)
    requires place { top.old.at + 1 < 2 ^ 32 }
    requires room { HasRoom context.old }
    ensures config { (frames : List Frame) → config_with frames top.new context.new
        ≡ answers.begin_put answer.now (config_with frames top.old context.old) }
    ensures size { length top.new.storage.items ≡ length top.old.storage.items }
    ensures program { top.new.program ≡ top.old.program }
{
    match answer {
        Answer::Begun(restarts) => {
            unit_begun(context, *restarts);
            go_over(top, 0);
        }
        _ => pass(top, context),
    }
}

/// The answer to END- and ABORT-TRANSACTION.
fn put_end(top: &mut Top, context: &mut Context)
    requires place { top.old.at + 1 < 2 ^ 32 }
    requires room { HasRoom context.old }
    ensures config { (frames : List Frame) → config_with frames top.new context.new
        ≡ answers.unit_end_put (config_with frames top.old context.old) }
    ensures size { length top.new.storage.items ≡ length top.old.storage.items }
    ensures program { top.new.program ≡ top.old.program }
{
    unit_ended(context);
    go_over(top, 0);
}

/// The record that was read is moved INTO an item, at status 0 alone.
fn move_into(
    storage: &mut [u8],
    registers: MachineRegisters,
    into: StoragePlace,
    status: u16,
    content: &Option<Bytes>,
)
    requires { IsPlace (length storage.old) into }
    ensures { storage.new ≡ answers.moved_into (reading.spot_of (registers_by registers) storage.old into) status content.now storage.old }
{
    let Some(spot) = spot_of(registers, storage, &into) else {
        return;
    };
    match content {
        Some(content) if status == 0 => move_text(storage, spot, content.as_slice()),
        _ => {}
    }
}

/// The record that was read is moved INTO an item of the program at work, at status 0 alone.
fn move_record(
    top: &mut Top,
    registers: MachineRegisters,
    into: StoragePlace,
    status: u16,
    content: &Option<Bytes>,
)
    requires { IsPlace (length top.old.storage.items) into }
    ensures top { frame_of top.new ≡ record (frame_of top.old) {
      storage = answers.moved_into (reading.spot_of (registers_by registers) top.old.storage.items into) status content.now top.old.storage.items;
    } }
    ensures size { length top.new.storage.items ≡ length top.old.storage.items }
{
    move_into(top.storage.as_mut_slice(), registers, into, status, content);
}

/// FILE-STATUS is the status of an operation that is done.
fn put_status(top: &mut Top, context: &mut Context, status: u16)
    requires place { top.old.at + 1 < 2 ^ 32 }
    ensures config { (frames : List Frame) → config_with frames top.new context.new
        ≡ answers.file_done None status None (config_with frames top.old context.old) }
    ensures size { length top.new.storage.items ≡ length top.old.storage.items }
    ensures program { top.new.program ≡ top.old.program }
{
    context.at_verb = false;
    context.file_status = status;
    go_over(top, 0);
}

/// The answer to READ and READ NEXT.
fn put_read(top: &mut Top, context: &mut Context, into: StoragePlace, answer: &Answer)
    requires into { IsPlace (length top.old.storage.items) into }
    requires place { top.old.at + 1 < 2 ^ 32 }
    ensures config { (frames : List Frame) → config_with frames top.new context.new
        ≡ answers.read_put into answer.now (config_with frames top.old context.old) }
    ensures size { length top.new.storage.items ≡ length top.old.storage.items }
    ensures program { top.new.program ≡ top.old.program }
{
    match answer {
        Answer::FileDone { status, content } => {
            let registers = MachineRegisters::of(context);
            move_record(top, registers, into, *status, content);
            put_status(top, context, *status);
        }
        _ => pass_file(top, context),
    }
}

/// The answer to WRITE, REWRITE and DELETE.
fn put_file(top: &mut Top, context: &mut Context, answer: &Answer)
    requires place { top.old.at + 1 < 2 ^ 32 }
    ensures config { (frames : List Frame) → config_with frames top.new context.new
        ≡ answers.file_put answer.now (config_with frames top.old context.old) }
    ensures size { length top.new.storage.items ≡ length top.old.storage.items }
    ensures program { top.new.program ≡ top.old.program }
{
    match answer {
        Answer::FileDone { status, .. } => put_status(top, context, *status),
        _ => pass_file(top, context),
    }
}

/// The answer to an instruction. One that does not ask stays.
fn put_by(system: &System, instr: &Instr, top: &mut Top, context: &mut Context, answer: &Answer)
    requires can { CanDoInstr system.now (frame_of top.old) instr.now }
    requires room { HasRoom context.old }
    ensures config { (frames : List Frame) → config_with frames top.new context.new
        ≡ answers.answered_by system.now (Some instr.now) answer.now (config_with frames top.old context.old) }
    ensures size { length top.new.storage.items ≡ length top.old.storage.items }
    ensures program { top.new.program ≡ top.old.program }
{
    match instr {
        Instr::DisplayScreen { .. } => put_shown(top, context),
        Instr::Display(_) => put_shown(top, context),
        Instr::Accept { screen, keys } => {
            put_entry(system, top, context, *screen, keys.as_slice(), answer);
        }
        Instr::Send { codes, .. } => put_reply(top, context, codes.as_slice(), answer),
        Instr::Begin => put_begun(top, context, answer),
        Instr::End => put_end(top, context),
        Instr::Abort => put_end(top, context),
        Instr::Read { into, .. } | Instr::ReadNext { into, .. } => {
            put_read(top, context, *into, answer);
        }
        Instr::Write { .. } | Instr::Rewrite { .. } | Instr::Delete { .. } => {
            put_file(top, context, answer);
        }
        _ => {}
    }
}

/// Puts an answer in: an advisory takes only that it was shown, and where a run fault stands none is taken.
pub fn put(system: &System, top: &mut Top, context: &mut Context, answer: &Answer)
    requires valid { IsValid system.now }
    requires frame { IsFrame system.now (frame_of top.old) }
    requires room { HasRoom context.old }
    ensures config { (frames : List Frame) → config_with frames top.new context.new
        ≡ answers.put system.now answer.now (config_with frames top.old context.old) }
    ensures size { length top.new.storage.items ≡ length top.old.storage.items }
    ensures program { top.new.program ≡ top.old.program }
{
    match context.course {
        Course::Fault(_) => {}
        Course::Advisory => shown(context),
        Course::Instruction => {
            if let Some(instr) = instr_at(system, top) {
                put_by(system, instr, top, context, answer);
            }
        }
    }
}
