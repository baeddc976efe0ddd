//! What statements do to the program at work, once they have begun.

ghost use Rattle.std.specs.Prelude.{◌≡◌, ◌≤◌, ◌<◌, ◌+◌, ◌^◌, length, option_map, All, IfOk, IfSome};
ghost use Rattle.pw_code.specs.Instrs.{IsArithmetic};
ghost use Rattle.pw_code.specs.Places.{IsOperand, IsPlace, IsCond};
ghost use Rattle.pw_tree_meaning.specs.Values.{whole_part, number_of};
ghost use Rattle.pw_code_meaning.specs.Config.{code_statement_counted, with_taken, on as goes_on, over as goes_over};
ghost use Rattle.pw_code_meaning.specs.Steps as steps;
ghost use Rattle.pw_code_meaning.specs.Turns as paragraphs;
ghost use Rattle.pw_machine.specs.Config.{config_of};
ghost use Rattle.pw_machine.specs.Stack.{StaysAt};

use crate::conditions::holds;
use crate::numbers::whole_part;
use crate::reading::taken;
use crate::registers::MachineRegisters;
use crate::statements::{compute, move_all};
use crate::top::Top;
use crate::turns::{chosen, count, fault, go_over, turns};
use crate::value::number_of;
use pw_base::memory::Memory;
use pw_code::cond::Cond;
use pw_code::context::Context;
use pw_code::instr::{Arithmetic, Turn};
use pw_code::operand::InstructionOperand;
use pw_code::place::StoragePlace;

/// IF: goes on where the condition holds, and else behind so many instructions.
#[inline(always)]
fn branch(top: &mut Top, context: &mut Context, cond: &Cond, over: u32)
    requires cond { IsCond (length top.old.storage.items) cond.now }
    requires place { top.old.at + 1 + over < 2 ^ 32 }
    ensures config { config_of top.new context.new
        ≡ with_taken (steps.holds_here (config_of top.old context.old) cond.now) (steps.branch over) (config_of top.old context.old) }
    ensures stays { StaysAt (config_of top.old context.old) (config_of top.new context.new) }
{
    match holds(context, top.storage.as_slice(), cond) {
        Some(true) => go_over(top, 0),
        Some(false) => go_over(top, over),
        None => fault(context, 203),
    }
}

/// IF counts, and is done where not too many statements have begun.
#[inline(always)]
pub fn begin_branch(top: &mut Top, context: &mut Context, cond: &Cond, over: u32)
    requires cond { IsCond (length top.old.storage.items) cond.now }
    requires place { top.old.at + 1 + over < 2 ^ 32 }
    ensures config { config_of top.new context.new
        ≡ code_statement_counted (λ c. with_taken (steps.holds_here c cond.now) (steps.branch over) c) (config_of top.old context.old) }
    ensures stays { StaysAt (config_of top.old context.old) (config_of top.new context.new) }
{
    if !count(context) {
        return;
    }
    branch(top, context, cond, over);
}

/// MOVE.
#[inline(always)]
fn move_to(
    top: &mut Top,
    context: &mut Context,
    from: &InstructionOperand,
    to: &[StoragePlace],
) -> Result<(), Memory>
    requires from { IsOperand (length top.old.storage.items) from.now }
    requires to { All (IsPlace (length top.old.storage.items)) to.now }
    requires place { top.old.at + 1 < 2 ^ 32 }
    ensures config { IfOk result (λ _. config_of top.new context.new ≡ steps.move_all from.now to.now (config_of top.old context.old)) }
    ensures stays { StaysAt (config_of top.old context.old) (config_of top.new context.new) }
{
    let alloc = context.screen.cells.allocator();
    if move_all(alloc, context, top.storage.as_mut_slice(), from, to)? {
        go_over(top, 0);
    } else {
        fault(context, 203);
    }
    Ok(())
}

/// MOVE counts, and is done where not too many statements have begun.
#[inline(always)]
pub fn begin_move(
    top: &mut Top,
    context: &mut Context,
    from: &InstructionOperand,
    to: &[StoragePlace],
) -> Result<(), Memory>
    requires from { IsOperand (length top.old.storage.items) from.now }
    requires to { All (IsPlace (length top.old.storage.items)) to.now }
    requires place { top.old.at + 1 < 2 ^ 32 }
    ensures config { IfOk result (λ _. config_of top.new context.new
        ≡ code_statement_counted (steps.move_all from.now to.now) (config_of top.old context.old)) }
    ensures stays { StaysAt (config_of top.old context.old) (config_of top.new context.new) }
{
    if !count(context) {
        return Ok(());
    }
    move_to(top, context, from, to)
}

/// Arithmetic: goes on with the next instruction on a size error, and else behind so many.
#[inline(always)]
fn calculate(top: &mut Top, context: &mut Context, arithmetic: &Arithmetic, over: u32)
    requires arithmetic { IsArithmetic (length top.old.storage.items) arithmetic.now }
    requires place { top.old.at + 1 + over < 2 ^ 32 }
    ensures config { config_of top.new context.new
        ≡ steps.computes arithmetic.now (goes_over 0) (goes_over over) (config_of top.old context.old) }
    ensures stays { StaysAt (config_of top.old context.old) (config_of top.new context.new) }
{
    match compute(context, top.storage.as_mut_slice(), arithmetic) {
        Some(true) => go_over(top, over),
        Some(false) => go_over(top, 0),
        None => fault(context, 203),
    }
}

/// Arithmetic without ON SIZE ERROR counts, and is done where not too many statements have begun.
#[inline(always)]
pub fn begin_arithmetic(top: &mut Top, context: &mut Context, arithmetic: &Arithmetic)
    requires arithmetic { IsArithmetic (length top.old.storage.items) arithmetic.now }
    requires place { top.old.at + 1 < 2 ^ 32 }
    ensures config { config_of top.new context.new
        ≡ code_statement_counted (steps.computes arithmetic.now goes_on goes_on) (config_of top.old context.old) }
    ensures stays { StaysAt (config_of top.old context.old) (config_of top.new context.new) }
{
    if !count(context) {
        return;
    }
    calculate(top, context, arithmetic, 0);
}

/// Arithmetic with ON SIZE ERROR counts, and is done where not too many statements have begun.
#[inline(always)]
pub fn begin_guarded(top: &mut Top, context: &mut Context, arithmetic: &Arithmetic, over: u32)
    requires arithmetic { IsArithmetic (length top.old.storage.items) arithmetic.now }
    requires place { top.old.at + 1 + over < 2 ^ 32 }
    ensures config { config_of top.new context.new
        ≡ code_statement_counted (steps.computes arithmetic.now goes_on (goes_over over)) (config_of top.old context.old) }
    ensures stays { StaysAt (config_of top.old context.old) (config_of top.new context.new) }
{
    if !count(context) {
        return;
    }
    calculate(top, context, arithmetic, over);
}

/// The whole part of an operand's number, None exactly where its subscript is outside.
#[tactic(auto, using(crate::proofs::Shorts::whole_short))]
fn whole_of(top: &Top, context: &Context, operand: &InstructionOperand) -> Option<u128>
    requires { IsOperand (length top.now.storage.items) operand.now }
    ensures short { IfSome result (λ whole. whole < 10 ^ 18) }
    ensures whole { result ≡ option_map (λ value. whole_part (number_of value)) (steps.read_here (config_of top.now context.now) operand.now) }
{
    let storage = top.storage.as_slice();
    let found = taken(MachineRegisters::of(context), storage, operand)?;
    Some(whole_part(number_of(storage, operand, found)))
}

/// PERFORM so many TIMES.
pub fn perform_times(
    top: &mut Top,
    context: &mut Context,
    turn: Turn,
    times: &InstructionOperand,
) -> Result<(), Memory>
    requires times { IsOperand (length top.old.storage.items) times.now }
    requires place { top.old.at + 1 < 2 ^ 32 }
    ensures config { IfOk result (λ _. config_of top.new context.new
        ≡ with_taken (steps.read_here (config_of top.old context.old) times.now)
        (λ value. paragraphs.turns turn (whole_part (number_of value))) (config_of top.old context.old)) }
    ensures stays { StaysAt (config_of top.old context.old) (config_of top.new context.new) }
{
    match whole_of(top, context, times) {
        Some(count) => turns(top, context, turn, count as u64),
        None => {
            fault(context, 203);
            Ok(())
        }
    }
}

/// PERFORM ONE OF some paragraphs.
pub fn perform_one_of(
    top: &mut Top,
    context: &mut Context,
    all: &[Turn],
    position: &InstructionOperand,
) -> Result<(), Memory>
    requires position { IsOperand (length top.old.storage.items) position.now }
    requires place { top.old.at + 1 < 2 ^ 32 }
    ensures config { IfOk result (λ _. config_of top.new context.new
        ≡ with_taken (steps.read_here (config_of top.old context.old) position.now)
        (λ value. paragraphs.chosen (paragraphs.at_position all.now (whole_part (number_of value)))) (config_of top.old context.old)) }
    ensures stays { StaysAt (config_of top.old context.old) (config_of top.new context.new) }
{
    match whole_of(top, context, position) {
        Some(place) => chosen(top, context, all, place),
        None => {
            fault(context, 203);
            Ok(())
        }
    }
}
