//! CALL, and how a called program is left.

ghost use Rattle.std.specs.Prelude.{◌≡◌, ◌<◌, ◌+◌, ◌++◌, ◌∷◌, [], true, length, map, slice_get, All, IfOk, Some};
ghost use Rattle.pw_code.specs.Instrs.{IsProgramCall};
ghost use Rattle.pw_code.specs.Places.{IsPlace};
ghost use Rattle.pw_code.specs.Instrs as instrs;
ghost use Rattle.pw_code.specs.Valid.{IsValid};
ghost use Rattle.pw_code.specs.declared.instr.Instr.TheVariants.{Call};
ghost use Rattle.pw_code_meaning.specs.Calls as programs;
ghost use Rattle.pw_code_meaning.specs.Config.{with_taken};
ghost use Rattle.pw_code_meaning.specs.Config as config;
ghost use Rattle.pw_code_meaning.specs.Reading.{registers_of, chars_at};
ghost use Rattle.pw_code_meaning.specs.Sound.{IsFrame, IsSound, Waits, kept_size};
ghost use Rattle.pw_code_meaning.specs.Steps as steps;
ghost use Rattle.pw_machine.specs.Config.{config_of, frame_of};
ghost use Rattle.pw_machine.specs.Views.{registers_by, spot_by, IsSpot};

use crate::chars::digits_text;
use crate::linkage::{copy_back, copy_in};
use crate::numbers::{chars_at, digits_in, whole_part};
use crate::registers::MachineRegisters;
use crate::spot::MachineSpot;
use crate::stack::{active, close, code_at, instr_at, open, pop};
use crate::statements::spots_of;
use crate::top::Top;
use crate::turns::fault;
use crate::verbs::stop;
use pw_base::memory::Memory;
use pw_code::context::{Context, Frame};
use pw_code::instr::Instr;
use pw_code::place::StoragePlace;
use pw_code::system::System;
use std::mem;

/// The most CALLs that are active in a terminal.
const MAX_CALLS: usize = 8;

/// The most characters of storage of the programs that are active in a terminal.
const MAX_ACTIVE: u128 = 64_000;

/// Keeps the registers behind the items of a called program, where its CALL asks for it.
fn keep(storage: &mut Vec<u8>, registers: MachineRegisters, keeps: bool) -> Result<(), Memory>
    ensures { IfOk result (λ _. storage.new.items ≡ storage.old.items ++ programs.kept keeps (registers_by registers)) }
{
    if !keeps {
        return Ok(());
    }
    let alloc = *storage.allocator();
    let termination = digits_text(alloc, 4, registers.termination as u32)?;
    let restarts = digits_text(alloc, 5, registers.restarts)?;
    storage.extend_from_slice(termination.as_slice())?;
    storage.extend_from_slice(restarts.as_slice())?;
    Ok(())
}

/// The registers that a CALL kept in so many characters.
#[tactic(auto, using(crate::proofs::Shorts::whole_five))]
fn kept_in(chars: &[u8]) -> MachineRegisters
    requires { length chars.now ≡ 9 }
    ensures { registers_by result ≡ programs.kept_in chars.now }
{
    let (termination, restarts) = chars.split_at(4);
    MachineRegisters {
        termination: whole_part(digits_in(termination, 0)) as u16,
        restarts: whole_part(digits_in(restarts, 0)) as u32,
        file_status: 0,
    }
}

/// A called program at its start, with its arguments copied in.
fn called(
    system: &System,
    caller: &Top,
    registers: MachineRegisters,
    program: u32,
    places: &[MachineSpot],
    keeps: bool,
) -> Result<Top, Memory>
    requires valid { IsValid system.now }
    requires known { program < length system.now.programs }
    requires places { All (IsSpot (length caller.now.storage.items)) places.now }
    requires sizes { map (λ spot. spot.size) places.now ≡ map (λ item. item.1) (instrs.program_at system.now program).linkage }
    ensures frame { (context : Context) → registers_of context ≡ registers_by registers
        → IfOk result (λ top. frame_of top ≡ programs.called_frame system.now program (map spot_by places.now) keeps (config_of caller.now context)) }
    ensures program { IfOk result (λ top. top.program ≡ program) }
    ensures size { IfOk result (λ top. length top.storage.items ≡ length (instrs.program_at system.now program).storage + kept_size keeps) }
{
    let alloc = *caller.storage.allocator();
    let code = &system.programs.as_slice()[program as usize];
    let mut storage = Vec::from_slice(alloc, code.storage.as_slice())?;
    copy_in(
        storage.as_mut_slice(),
        code.linkage.as_slice(),
        caller.storage.as_slice(),
        places,
    );
    keep(&mut storage, registers, keeps)?;
    Ok(Top {
        program: program as u16,
        at: 0,
        storage,
        returns: Vec::new(alloc),
    })
}

/// The called program is at work, and its caller waits.
fn enter(top: &mut Top, context: &mut Context, callee: Top) -> Result<(), Memory>
    ensures top { frame_of top.new ≡ frame_of callee }
    ensures context { IfOk result (λ _. context.new ≡ record context.old { frames = context.old.frames ++ frame_of top.old ∷ [] }) }
{
    let caller = mem::replace(top, callee);
    context.frames.push(close(caller))?;
    Ok(())
}

/// CALL of a program. First the subscripts of its arguments are taken, then the depth is looked at, and then the
/// storage.
pub fn call(
    system: &System,
    top: &mut Top,
    context: &mut Context,
    program: u32,
    arguments: &[StoragePlace],
    keeps: bool,
) -> Result<(), Memory>
    requires valid { IsValid system.now }
    requires sound { IsSound system.now (config_of top.old context.old) }
    requires at { slice_get (config.code_at system.now top.old.program).instrs top.old.at ≡ Some (Call program arguments.now keeps) }
    requires call { IsProgramCall system.now (length top.old.storage.items) program arguments.now }
    ensures config { IfOk result (λ _. config_of top.new context.new
        ≡ with_taken (steps.spots_here (config_of top.old context.old) arguments.now) (programs.calls system.now program keeps) (config_of top.old context.old)) }
    ensures sound { IfOk result (λ _. IsSound system.now (config_of top.new context.new)) }
{
    let alloc = context.screen.cells.allocator();
    let registers = MachineRegisters::of(context);
    let Some(places) = spots_of(alloc, registers, top.storage.as_slice(), arguments)? else {
        fault(context, 203);
        return Ok(());
    };
    if context.frames.len() >= MAX_CALLS {
        fault(context, 202);
        return Ok(());
    }
    let size = system.programs.as_slice()[program as usize].storage.len();
    if active(system, top, context) + size as u128 > MAX_ACTIVE {
        fault(context, 208);
        return Ok(());
    }
    let callee = called(system, top, registers, program, places.as_slice(), keeps)?;
    enter(top, context, callee)?;
    Ok(())
}

/// The registers by which the subscripts of a CALL's arguments go when they are copied back.
fn registers_at_call(
    system: &System,
    callee: &Top,
    context: &Context,
    keeps: bool,
) -> MachineRegisters
    requires known { callee.now.program < length system.now.programs + length system.now.servers }
    requires size { length callee.now.storage.items ≡ length (config.code_at system.now callee.now.program).storage + kept_size keeps }
    ensures { registers_by result
        ≡ programs.registers_at_call keeps (length (config.code_at system.now callee.now.program).storage) (frame_of callee.now) context.now }
{
    if keeps {
        let items = code_at(system, callee.program).storage.len();
        let (_, kept) = callee.storage.as_slice().split_at(items);
        kept_in(kept)
    } else {
        MachineRegisters::of(context)
    }
}

/// Copies the arguments of a CALL back into the storage of its caller, which stands at it.
fn take_back(
    system: &System,
    caller: &mut Top,
    callee: &Top,
    context: &Context,
    instr: &Instr,
) -> Result<(), Memory>
    requires valid { IsValid system.now }
    requires waits { Waits system.now (frame_of caller.old) (frame_of callee.now) }
    requires at { slice_get (config.code_at system.now caller.old.program).instrs caller.old.at ≡ Some instr.now }
    requires callee { IsFrame system.now (frame_of callee.now) }
    ensures top { IfOk result (λ _. frame_of caller.new ≡ record (frame_of caller.old) {
      storage = programs.storage_behind system.now (Some instr.now) (frame_of caller.old) (frame_of callee.now) context.now;
    }) }
    ensures size { length caller.new.storage.items ≡ length caller.old.storage.items }
{
    let Instr::Call {
        arguments,
        keeps,
        ..
    } = instr
    else {
        return Ok(());
    };
    let alloc = context.screen.cells.allocator();
    let registers = registers_at_call(system, callee, context, *keeps);
    let storage = caller.storage.as_slice();
    if let Some(places) = spots_of(alloc, registers, storage, arguments.as_slice())? {
        let code = code_at(system, callee.program);
        copy_back(
            caller.storage.as_mut_slice(),
            places.as_slice(),
            code.linkage.as_slice(),
            callee.storage.as_slice(),
        );
    }
    Ok(())
}

/// Goes on in a caller behind its CALL.
fn come_back(system: &System, top: &mut Top, context: &Context, caller: Frame) -> Result<(), Memory>
    requires valid { IsValid system.now }
    requires waits { Waits system.now caller (frame_of top.old) }
    requires callee { IsFrame system.now (frame_of top.old) }
    ensures top { IfOk result (λ _. frame_of top.new ≡ (programs.returned system.now context.now.frames caller (config_of top.old context.now)).top) }
    ensures size { IfOk result (λ _. length top.new.storage.items ≡ length caller.storage) }
{
    let callee = mem::replace(top, open(caller));
    let Some(instr) = instr_at(system, top) else {
        unreachable!();
    };
    take_back(system, top, &callee, context, instr)?;
    top.at += 1;
    Ok(())
}

/// Leaves a program: the one that no other called stops.
pub fn leave(system: &System, top: &mut Top, context: &mut Context) -> Result<(), Memory>
    requires valid { IsValid system.now }
    requires sound { IsSound system.now (config_of top.old context.old) }
    ensures config { IfOk result (λ _. config_of top.new context.new ≡ programs.leaves system.now (config_of top.old context.old)) }
    ensures sound { IfOk result (λ _. IsSound system.now (config_of top.new context.new)) }
{
    match pop(context) {
        Some(caller) => come_back(system, top, context, caller)?,
        None => stop(system, top, context),
    }
    Ok(())
}
