ghost use Rattle.std.specs.Prelude.{◌≡◌, ◌≤◌, ◌<◌, ◌+◌, ◌-◌, ◌^◌, true, length, take, nat_lt, option_map, IfOk, if◌then◌else◌};
ghost use Rattle.pw_code.specs.declared.context.Course.TheVariants.{Fault};
ghost use Rattle.pw_code_meaning.specs.Config.{most_counted};
ghost use Rattle.pw_code_meaning.specs.Config as config;
ghost use Rattle.pw_code_meaning.specs.Turns as paragraphs;
ghost use Rattle.pw_machine.specs.Config.{config_of};
ghost use Rattle.pw_machine.specs.Stack.{StaysAt};

use crate::top::Top;
use pw_base::memory::Memory;
use pw_code::context::{Context, Course, Return};
use pw_code::instr::Turn;

/// The most statements and turns between two answers.
const MAX_COUNTED: u32 = 100_000;

/// The most PERFORMs that are active in a program.
const MAX_PERFORMS: usize = 64;

/// Stands at a run fault.
pub fn fault(context: &mut Context, code: u16)
    ensures { context.new ≡ record context.old { course = Fault code; at_verb = true } }
{
    context.course = Course::Fault(code);
    context.at_verb = true;
}

/// A statement or a turn begins, unless too many have begun.
pub fn count(context: &mut Context) -> bool
    ensures told { result ≡ nat_lt context.old.count most_counted }
    ensures context { context.new ≡ (if result then record context.old { count = context.old.count + 1 } else record context.old { course = Fault 201; at_verb = true }) }
{
    if context.count < MAX_COUNTED {
        context.count += 1;
        true
    } else {
        fault(context, 201);
        false
    }
}

/// Goes on behind so many instructions more than the present one.
pub fn go_over(top: &mut Top, over: u32)
    requires { top.old.at + 1 + over < 2 ^ 32 }
    ensures { top.new ≡ record top.old { at = top.old.at + 1 + over } }
{
    top.at += 1 + over;
}

/// Makes a turn of a paragraph, which comes back to a place, where so many follow.
pub fn turn(
    top: &mut Top,
    context: &mut Context,
    resume: u32,
    paragraph: Turn,
    left: u64,
) -> Result<(), Memory>
    ensures config { IfOk result (λ _. config_of top.new context.new ≡ paragraphs.turn resume paragraph left (config_of top.old context.old)) }
    ensures stays { StaysAt (config_of top.old context.old) (config_of top.new context.new) }
{
    if count(context) {
        if top.returns.len() < MAX_PERFORMS {
            top.returns.push(Return {
                resume,
                until: paragraph.end,
                turns: left,
            })?;
            top.at = paragraph.start;
        } else {
            fault(context, 202);
        }
    }
    Ok(())
}

/// Makes so many turns, which go on behind the instruction.
pub fn turns(
    top: &mut Top,
    context: &mut Context,
    paragraph: Turn,
    times: u64,
) -> Result<(), Memory>
    requires { top.old.at + 1 < 2 ^ 32 }
    ensures config { IfOk result (λ _. config_of top.new context.new ≡ paragraphs.turns paragraph times (config_of top.old context.old)) }
    ensures stays { StaysAt (config_of top.old context.old) (config_of top.new context.new) }
{
    if times == 0 {
        go_over(top, 0);
        Ok(())
    } else {
        turn(top, context, top.at + 1, paragraph, times - 1)
    }
}

/// Goes on where a test holds, and else makes a turn that comes back to it. Without a test a subscript is outside.
pub fn tested(
    top: &mut Top,
    context: &mut Context,
    paragraph: Turn,
    holds: Option<bool>,
) -> Result<(), Memory>
    requires { top.old.at + 1 < 2 ^ 32 }
    ensures config { IfOk result (λ _. config_of top.new context.new ≡ paragraphs.tested paragraph holds (config_of top.old context.old)) }
    ensures stays { StaysAt (config_of top.old context.old) (config_of top.new context.new) }
{
    match holds {
        None => {
            fault(context, 203);
            Ok(())
        }
        Some(true) => {
            go_over(top, 0);
            Ok(())
        }
        Some(false) => turn(top, context, top.at, paragraph, 0),
    }
}

/// Makes a turn of the paragraph at a position from 1, if there is one.
pub fn chosen(
    top: &mut Top,
    context: &mut Context,
    all: &[Turn],
    position: u128,
) -> Result<(), Memory>
    requires { top.old.at + 1 < 2 ^ 32 }
    ensures config { IfOk result (λ _. config_of top.new context.new
        ≡ paragraphs.chosen (paragraphs.at_position all.now position) (config_of top.old context.old)) }
    ensures stays { StaysAt (config_of top.old context.old) (config_of top.new context.new) }
{
    match at_position(all, position) {
        Some(paragraph) => turn(top, context, top.at + 1, paragraph, 0),
        None => {
            go_over(top, 0);
            Ok(())
        }
    }
}

/// The paragraph at a position from 1, if there is one.
fn at_position(all: &[Turn], position: u128) -> Option<Turn>
    ensures { result ≡ paragraphs.at_position all.now position }
{
    if position == 0 || position > all.len() as u128 {
        return None;
    }
    Some(all[position as usize - 1])
}

/// The end of a paragraph that begins at a place: where the last active PERFORM is of it, its turn has ended.
pub fn end_paragraph(top: &mut Top, context: &mut Context, start: u32)
    requires { top.old.at + 1 < 2 ^ 32 }
    ensures config { config_of top.new context.new ≡ paragraphs.ends start (config_of top.old context.old) }
    ensures stays { StaysAt (config_of top.old context.old) (config_of top.new context.new) }
{
    match last_of(top.returns.as_slice()) {
        Some(last) if last.until == top.at => end_turn(top, context, start, last),
        _ => go_over(top, 0),
    }
}

/// The last active PERFORM.
fn last_of(returns: &[Return]) -> Option<Return>
    ensures { paragraphs.split_last returns.now ≡ option_map (λ last. (take (length returns.now - 1) returns.now, last)) result }
{
    if returns.is_empty() {
        return None;
    }
    Some(returns[returns.len() - 1])
}

/// The last turn of the last active PERFORM has ended: the next one, or back to where it came from.
fn end_turn(top: &mut Top, context: &mut Context, start: u32, last: Return)
    requires { 0 < length top.old.returns.items }
    ensures config { config_of top.new context.new
        ≡ paragraphs.comes_back start (take (length top.old.returns.items - 1) top.old.returns.items) last (config_of top.old context.old) }
    ensures stays { StaysAt (config_of top.old context.old) (config_of top.new context.new) }
{
    let place = top.returns.len() - 1;
    if last.turns == 0 {
        top.returns.truncate(place);
        top.at = last.resume;
    } else if count(context) {
        top.returns[place] = Return {
            resume: last.resume,
            until: last.until,
            turns: last.turns - 1,
        };
        top.at = start;
    }
}
