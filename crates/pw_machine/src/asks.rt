//! Statements that ask something, once they have begun.

ghost use Rattle.std.specs.Prelude.{◌≡◌, ◌≤◌, ◌<◌, ◌+◌, ◌^◌, true, length, map, is_some, All, IfOk};
ghost use Rattle.pw_code.specs.Instrs.{IsScreen, IsReplyCode, screen_at};
ghost use Rattle.pw_code.specs.Places.{IsOperand, IsPlace};
ghost use Rattle.pw_tree_meaning.specs.Values.{as_it_stands};
ghost use Rattle.pw_terminal.specs.Screen.{with_message};
ghost use Rattle.pw_terminal.specs.Shown.{with_screen};
ghost use Rattle.pw_code_meaning.specs.Config.{with_taken, code_at};
ghost use Rattle.pw_code_meaning.specs.Reading.{spots_of};
ghost use Rattle.pw_code_meaning.specs.Steps as steps;
ghost use Rattle.pw_machine.specs.Config.{config_of};
ghost use Rattle.pw_machine.specs.Stack.{StaysAt};
ghost use Rattle.pw_machine.specs.Views.{registers_by};

use crate::chars::read_chars;
use crate::moves::move_value;
use crate::reading::{spot_of, taken};
use crate::registers::MachineRegisters;
use crate::spot::{MachineOperand, MachineSpot};
use crate::stack::code_at;
use crate::top::Top;
use crate::turns::{fault, go_over};
use crate::verbs::ask;
use pw_base::memory::Memory;
use pw_code::context::Context;
use pw_code::instr::ReplyCode;
use pw_code::operand::InstructionOperand;
use pw_code::place::{Kind, StoragePlace};
use pw_code::system::System;
use pw_terminal::images::message;
use pw_terminal::show::show;

/// DISPLAY on row 24.
pub fn display(top: &Top, context: &mut Context, shown: &InstructionOperand) -> Result<(), Memory>
    requires { IsOperand (length top.now.storage.items) shown.now }
    ensures config { IfOk result (λ _. config_of top.now context.new
        ≡ with_taken (steps.read_here (config_of top.now context.old) shown.now)
        (λ value d. steps.shows (with_message (as_it_stands value) d.rest.screen) d) (config_of top.now context.old)) }
    ensures stays { StaysAt (config_of top.now context.old) (config_of top.now context.new) }
{
    let alloc = context.screen.cells.allocator();
    let registers = MachineRegisters::of(context);
    match read_chars(alloc, registers, top.storage.as_slice(), shown)? {
        Some(chars) => {
            message(chars.as_slice(), &mut context.screen);
            ask(context);
        }
        None => fault(context, 203),
    }
    Ok(())
}

/// DISPLAY of a screen.
pub fn display_screen(system: &System, top: &Top, context: &mut Context, screen: u32, base: bool)
    requires { IsScreen system.now (length top.now.storage.items) screen }
    ensures config { config_of top.now context.new
        ≡ steps.shows (with_screen base top.now.storage.items (screen_at system.now screen) context.old.screen) (config_of top.now context.old) }
    ensures stays { StaysAt (config_of top.now context.old) (config_of top.now context.new) }
{
    let table = &system.screens.as_slice()[screen as usize];
    show(table, top.storage.as_slice(), base, &mut context.screen);
    ask(context);
}

/// Whether the subscript of no item of YIELDS is outside.
fn are_inside(registers: MachineRegisters, storage: &[u8], codes: &[ReplyCode]) -> bool
    requires { All (IsReplyCode (length storage.now)) codes.now }
    ensures { result ≡ is_some (spots_of (registers_by registers) storage.now (map (λ code. code.yields) codes.now)) }
{
    for code in codes {
        if spot_of(registers, storage, &code.yields).is_none() {
            return false;
        }
    }
    true
}

/// SEND: its subscripts are taken, and it is asked.
pub fn send(top: &Top, context: &mut Context, message: &InstructionOperand, codes: &[ReplyCode])
    requires message { IsOperand (length top.now.storage.items) message.now }
    requires codes { All (IsReplyCode (length top.now.storage.items)) codes.now }
    ensures config { config_of top.now context.new ≡ steps.sends message.now codes.now (config_of top.now context.old) }
    ensures stays { StaysAt (config_of top.now context.old) (config_of top.now context.new) }
{
    let registers = MachineRegisters::of(context);
    let storage = top.storage.as_slice();
    if taken(registers, storage, message).is_some() && are_inside(registers, storage, codes) {
        ask(context);
    } else {
        fault(context, 203);
    }
}

/// READ and READ NEXT: their subscripts are taken, and they are asked.
pub fn read_record(top: &Top, context: &mut Context, key: &InstructionOperand, into: StoragePlace)
    requires key { IsOperand (length top.now.storage.items) key.now }
    requires into { IsPlace (length top.now.storage.items) into }
    ensures config { config_of top.now context.new ≡ steps.reads key.now into (config_of top.now context.old) }
    ensures stays { StaysAt (config_of top.now context.old) (config_of top.now context.new) }
{
    let registers = MachineRegisters::of(context);
    let storage = top.storage.as_slice();
    if taken(registers, storage, key).is_some() && spot_of(registers, storage, &into).is_some() {
        ask(context);
    } else {
        fault(context, 203);
    }
}

/// An operation with one operand: its subscript is taken, and it is asked.
pub fn operate(top: &Top, context: &mut Context, operand: &InstructionOperand)
    requires { IsOperand (length top.now.storage.items) operand.now }
    ensures config { config_of top.now context.new ≡ steps.operates operand.now (config_of top.now context.old) }
    ensures stays { StaysAt (config_of top.now context.old) (config_of top.now context.new) }
{
    if taken(
        MachineRegisters::of(context),
        top.storage.as_slice(),
        operand,
    )
    .is_some()
    {
        ask(context);
    } else {
        fault(context, 203);
    }
}

/// READ $RECEIVE: the message, which lies behind the items of its server, is moved as a text.
pub fn receive(system: &System, top: &mut Top, context: &mut Context, into: StoragePlace)
    requires known { top.old.program < length system.now.programs + length system.now.servers }
    requires storage { length (code_at system.now top.old.program).storage ≤ length top.old.storage.items }
    requires into { IsPlace (length top.old.storage.items) into }
    requires place { top.old.at + 1 < 2 ^ 32 }
    ensures config { config_of top.new context.new ≡ steps.receives system.now into (config_of top.old context.old) }
    ensures stays { StaysAt (config_of top.old context.old) (config_of top.new context.new) }
{
    let storage = top.storage.as_mut_slice();
    match spot_of(MachineRegisters::of(context), storage, &into) {
        Some(spot) => {
            let at = code_at(system, top.program).storage.len();
            let size = storage.len() - at;
            let message = MachineSpot {
                at,
                size,
                kind: Kind::Group,
            };
            move_value(
                storage,
                &InstructionOperand::Spaces,
                MachineOperand::Stored(message),
                spot,
            );
            go_over(top, 0);
        }
        None => fault(context, 203),
    }
}
