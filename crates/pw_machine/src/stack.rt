ghost use Rattle.std.specs.Prelude.{◌≡◌, ◌≤◌, ◌<◌, ◌+◌, ◌*◌, ◌^◌, ◌++◌, [], length, slice_get, IfSome, Some};
ghost use Rattle.std.specs.Option.{option_copied, option_to_list};
ghost use Rattle.pw_code.specs.Valid.{IsValid};
ghost use Rattle.pw_code_meaning.specs.Calls as programs;
ghost use Rattle.pw_code_meaning.specs.Config.{code_at};
ghost use Rattle.pw_code_meaning.specs.Sound.{IsFrame};
ghost use Rattle.pw_code_meaning.specs.Turns.{split_last};
ghost use Rattle.pw_machine.specs.Config.{config_of, frame_of};
ghost use Rattle.pw_machine.specs.Stack.{AreKnown, CanDoInstr, popped};

use crate::top::Top;
use pw_base::bytes::Bytes;
use pw_base::list::List;
use pw_base::memory::Memory;
use pw_code::code::Code;
use pw_code::context::{Context, Frame};
use pw_code::instr::Instr;
use pw_code::system::System;
use std::mem;

/// The code of a number: those of terminals come first, and those of servers behind them.
#[inline(always)]
pub fn code_at(system: &System, number: u16) -> &Code
    requires { number < length system.now.programs + length system.now.servers }
    ensures { result.now ≡ code_at system.now number }
{
    let place = number as usize;
    let programs = system.programs.as_slice();
    if place < programs.len() {
        &programs[place]
    } else {
        &system.servers.as_slice()[place - programs.len()]
    }
}

/// The instruction at which a program stands, None behind the last.
#[inline(always)]
pub fn instr_at<'a>(system: &'a System, top: &Top) -> Option<&'a Instr>
    requires valid { IsValid system.now }
    requires frame { IsFrame system.now (frame_of top.now) }
    ensures there { option_copied result ≡ slice_get (code_at system.now top.now.program).instrs top.now.at }
    ensures at { IfSome result (λ instr. slice_get (code_at system.now top.now.program).instrs top.now.at ≡ Some instr.now) }
    ensures can { IfSome result (λ instr. CanDoInstr system.now (frame_of top.now) instr.now) }
{
    code_at(system, top.program).instrs.get(top.at as usize)
}

/// The program at work, taken out of its frame.
pub fn open(frame: Frame) -> Top
    ensures { frame_of result ≡ frame }
{
    Top {
        program: frame.program,
        at: frame.at,
        storage: frame.storage.into_vec(),
        returns: frame.returns.into_vec(),
    }
}

/// The frame of a program at work.
pub fn close(top: Top) -> Frame
    ensures { result ≡ frame_of top }
{
    Frame {
        program: top.program,
        at: top.at,
        storage: Bytes::from_vec(top.storage),
        returns: List::from_vec(top.returns),
    }
}

/// Takes out the frame that was called last. It takes no memory.
pub fn pop(context: &mut Context) -> Option<Frame>
    ensures last { split_last context.old.frames ≡ popped context.new.frames result }
    ensures frames { context.old.frames ≡ context.new.frames ++ option_to_list result }
    ensures others { context.new ≡ record context.old { frames = context.new.frames } }
{
    let alloc = context.screen.cells.allocator();
    let mut frames = mem::replace(&mut context.frames, List::new(alloc)).into_vec();
    let last = frames.pop();
    context.frames = List::from_vec(frames);
    last
}

/// Takes out all frames. It takes no memory.
pub fn take_frames(context: &mut Context) -> Vec<Frame>
    ensures frames { result.items ≡ context.old.frames }
    ensures others { context.new ≡ record context.old { frames = [] } }
{
    let alloc = context.screen.cells.allocator();
    mem::replace(&mut context.frames, List::new(alloc)).into_vec()
}

/// Puts frames back. It takes no memory.
pub fn put_frames(context: &mut Context, frames: Vec<Frame>)
    ensures { context.new ≡ record context.old { frames = frames.items } }
{
    context.frames = List::from_vec(frames);
}

/// The characters of the items of all programs at work.
pub fn active(system: &System, top: &Top, context: &Context) -> u128
    requires known { top.now.program < length system.now.programs + length system.now.servers }
    requires others { AreKnown system.now context.now.frames }
    ensures active { result ≡ programs.active system.now (config_of top.now context.now) }
    ensures bound { result ≤ (length context.now.frames + 1) * 2 ^ 64 }
{
    let mut total = 0;
    for frame in context.frames.as_slice() {
        total += code_at(system, frame.program).storage.len() as u128;
    }
    total + code_at(system, top.program).storage.len() as u128
}
