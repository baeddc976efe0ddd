//! Runs of compiled code.

ghost use Rattle.std.specs.Prelude.{◌≡◌, ◌<◌, length, IfOk, IsOk};
ghost use Rattle.pw_code.specs.Valid.{IsValid};
ghost use Rattle.pw_code_meaning.specs.Config.{starting, starting_server, closed};
ghost use Rattle.pw_code_meaning.specs.Config as config;
ghost use Rattle.pw_code_meaning.specs.Contexts.{RunsOn, PutsAnswer};
ghost use Rattle.pw_code_meaning.specs.Runs.{Reaches};
ghost use Rattle.pw_code_meaning.specs.Sound.{IsSound, IsSoundContext};
ghost use Rattle.pw_machine.specs.Config.{config_of};
ghost use Rattle.pw_machine.specs.Stack.{HasRoom};

use crate::act::step;
use crate::answers::put;
use crate::asked::asked;
use crate::stack::{close, open, pop, put_frames, take_frames};
use crate::top::Top;
use pw_base::bytes::Bytes;
use pw_base::list::List;
use pw_base::memory::Memory;
use pw_code::context::{Context, Course, Frame};
use pw_code::system::System;
use pw_code::verb::{Answer, Verb};
use pw_terminal::images::blank;
use std::alloc::Global;

/// A context that stands at the first instruction of a program.
fn fresh(alloc: Global, program: u16, storage: Bytes) -> Result<Context, Memory>
    ensures { IfOk result (λ context. context ≡ closed (record { top = config.frame_at program storage; rest = config.fresh })) }
{
    let screen = blank(alloc)?;
    let mut frames = List::new(alloc);
    frames.push(Frame {
        program,
        at: 0,
        storage,
        returns: List::new(alloc),
    })?;
    Ok(Context {
        termination: 0,
        restarts: 0,
        file_status: 0,
        phase: 0,
        attempt: 0,
        shown: 0,
        entries: 0,
        units: 0,
        in_unit: false,
        course: Course::Instruction,
        at_verb: false,
        count: 0,
        screen,
        frames,
    })
}

/// The context of a program of terminals, by its number, that starts.
pub fn start(alloc: Global, system: &System, program: u32) -> Result<Context, Memory>
    requires valid { IsValid system.now }
    requires known { program < length system.now.programs }
    ensures starts { IfOk result (λ context. context ≡ closed (starting system.now program)) }
    ensures sound { IfOk result (IsSoundContext system.now) }
{
    let code = &system.programs.as_slice()[program as usize];
    fresh(alloc, program as u16, code.storage.copy(alloc)?)
}

/// The context of a server, by its number, that starts on a message, which lies behind its items.
pub fn start_server(
    alloc: Global,
    system: &System,
    server: u32,
    message: &[u8],
) -> Result<Context, Memory>
    requires valid { IsValid system.now }
    requires known { server < length system.now.servers }
    ensures starts { IfOk result (λ context. context ≡ closed (starting_server system.now server message.now)) }
    ensures sound { IfOk result (IsSoundContext system.now) }
{
    let code = &system.servers.as_slice()[server as usize];
    let mut storage = code.storage.copy(alloc)?;
    storage.extend(message)?;
    let program = system.programs.len() as u16 + server as u16;
    fresh(alloc, program, storage)
}

/// Runs a program at work to its next verb.
fn run(system: &System, top: &mut Top, context: &mut Context) -> Result<(), Memory>
    requires valid { IsValid system.now }
    requires sound { IsSound system.now (config_of top.old context.old) }
    ensures reaches { IfOk result (λ _. Reaches system.now (config_of top.old context.old) (config_of top.new context.new)) }
    ensures sound { IfOk result (λ _. IsSound system.now (config_of top.new context.new)) }
{
    // Two loops for one walk, so that each has a number that falls: the outer one with each statement or turn that is
    // counted, of which at most 100,000 come before a verb; the inner one with each step that counts none, since such a
    // step goes on in the code, or goes back to a place that waits behind a PERFORM or a CALL.
    'verb: while !context.at_verb {
        let before = context.count;
        let mut goes_on = true;
        'count: while goes_on {
            step(system, top, context)?;
            goes_on = !context.at_verb && context.count == before;
        }
    }
    Ok(())
}

/// Runs a context to its next verb. After an `Err` the context is spent.
pub fn verb(system: &System, context: &mut Context) -> Result<Verb, Memory>
    requires valid { IsValid system.now }
    requires sound { IsSoundContext system.now context.old }
    ensures runs { IfOk result (λ verb. RunsOn system.now context.old context.new verb) }
    ensures sound { IfOk result (λ _. IsSoundContext system.now context.new) }
{
    let Some(frame) = pop(context) else {
        unreachable!();
    };
    let mut top = open(frame);
    run(system, &mut top, context)?;
    let verb = asked(system, &top, context)?;
    context.frames.push(close(top))?;
    Ok(verb)
}

/// Puts an answer into a context that stands at a verb. It takes no memory.
pub fn answer(system: &System, context: &mut Context, answer: Answer) -> Result<(), Memory>
    requires valid { IsValid system.now }
    requires sound { IsSoundContext system.now context.old }
    requires room { HasRoom context.old }
    ensures takes { PutsAnswer system.now answer context.old context.new }
    ensures sound { IsSoundContext system.now context.new }
    ensures never { IsOk result }
{
    let mut frames = take_frames(context);
    let Some(frame) = frames.pop() else {
        unreachable!();
    };
    let mut top = open(frame);
    put(system, &mut top, context, &answer);
    frames.push_reserved(close(top));
    put_frames(context, frames);
    Ok(())
}
