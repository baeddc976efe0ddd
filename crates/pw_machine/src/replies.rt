//! A reply, put into the program that sent for it.

ghost use Rattle.std.specs.Prelude.{◌≡◌, ◌==◌, ◌<◌, ◌≤◌, ◌+◌, ◌^◌, List, length, position, option_and_then, option_map, All, IfSome};
ghost use Rattle.pw_code.specs.Instrs.{IsReplyCode};
ghost use Rattle.pw_code.specs.declared.context.Frame.{Frame};
ghost use Rattle.pw_tree_meaning.specs.Sends.{code_in_reply};
ghost use Rattle.pw_code_meaning.specs.Answers as answers;
ghost use Rattle.pw_code_meaning.specs.Config.{Config};
ghost use Rattle.pw_code_meaning.specs.Reading.{registers_of};
ghost use Rattle.pw_machine.specs.Config.{config_with};
ghost use Rattle.pw_machine.specs.Replies.{seen_at, yielded_at};
ghost use Rattle.pw_machine.specs.Views.{registers_by, spot_by, IsSpot};
ghost use Rattle.pw_machine.specs.Stack.{HasRoom};

use crate::moves::move_text;
use crate::reading::spot_of;
use crate::registers::MachineRegisters;
use crate::spot::MachineSpot;
use crate::top::Top;
use crate::turns::go_over;
use crate::units::reply_taken;
use pw_code::context::Context;
use pw_code::instr::ReplyCode;

/// The code of a reply: its first 4 characters, where they are digits.
fn code_of(reply: &[u8]) -> Option<u16>
    ensures { result ≡ code_in_reply reply.now }
{
    let [a, b, c, d, ..] = reply else {
        return None;
    };
    if a.is_ascii_digit() && b.is_ascii_digit() && c.is_ascii_digit() && d.is_ascii_digit() {
        let high = (*a - b'0') as u16 * 10 + (*b - b'0') as u16;
        let low = (*c - b'0') as u16 * 10 + (*d - b'0') as u16;
        Some(high * 100 + low)
    } else {
        None
    }
}

/// The place, from 0, of the first CODE equal to a code.
fn place_of(codes: &[ReplyCode], code: u16) -> Option<usize>
    ensures place { result ≡ position (λ one. one.number == code) codes.now }
    ensures within { IfSome result (λ place. place < length codes.now) }
{
    codes.iter().position(|one| one.number == code)
}

/// The place, from 0, of the first CODE equal to the reply's code.
fn place_among(codes: &[ReplyCode], reply: &[u8]) -> Option<usize>
    ensures place { result ≡ answers.place_among codes.now reply.now }
    ensures within { IfSome result (λ place. place < length codes.now) }
{
    let code = code_of(reply)?;
    place_of(codes, code)
}

/// The place among the CODEs, from 0, and the spot to which the reply goes.
fn spot_among(
    registers: MachineRegisters,
    storage: &[u8],
    codes: &[ReplyCode],
    reply: &[u8],
) -> Option<(usize, MachineSpot)>
    requires codes { All (IsReplyCode (length storage.now)) codes.now }
    ensures found { (c : Config) → registers_of c.rest ≡ registers_by registers → c.top.storage ≡ storage.now
        → option_map seen_at result ≡ option_and_then (answers.spot_among c codes.now) (answers.place_among codes.now reply.now) }
    ensures within { IfSome result (λ found. found.0 < length codes.now) }
    ensures inside { IfSome result (λ found. IsSpot (length storage.now) found.1) }
{
    let place = place_among(codes, reply)?;
    let spot = spot_of(registers, storage, &codes[place].yields)?;
    Some((place, spot))
}

/// A reply goes to an item, and TERMINATION-STATUS is a position.
fn yield_to(top: &mut Top, context: &mut Context, position: u16, spot: MachineSpot, reply: &[u8])
    requires spot { IsSpot (length top.old.storage.items) spot }
    requires place { top.old.at + 2 < 2 ^ 32 }
    ensures config { (frames : List Frame) → config_with frames top.new context.new
        ≡ yielded_at position (spot_by spot) reply.now (config_with frames top.old context.old) }
    ensures size { length top.new.storage.items ≡ length top.old.storage.items }
    ensures program { top.new.program ≡ top.old.program }
{
    move_text(top.storage.as_mut_slice(), spot, reply);
    context.termination = position;
    go_over(top, 1);
}

/// A reply goes to the item of its code, and TERMINATION-STATUS is the position, from 1. Without one the `NoCode`
/// is next.
pub fn replied(top: &mut Top, context: &mut Context, codes: &[ReplyCode], reply: &[u8])
    requires codes { All (IsReplyCode (length top.old.storage.items)) codes.now }
    requires few { length codes.now ≤ 9999 }
    requires place { top.old.at + 2 < 2 ^ 32 }
    requires room { HasRoom context.old }
    ensures config { (frames : List Frame) → config_with frames top.new context.new
        ≡ answers.code_after_reply codes.now reply.now (config_with frames top.old context.old) }
    ensures size { length top.new.storage.items ≡ length top.old.storage.items }
    ensures program { top.new.program ≡ top.old.program }
{
    let registers = MachineRegisters::of(context);
    let found = spot_among(registers, top.storage.as_slice(), codes, reply);
    reply_taken(context);
    match found {
        Some((place, spot)) => yield_to(top, context, place as u16 + 1, spot, reply),
        None => go_over(top, 0),
    }
}
