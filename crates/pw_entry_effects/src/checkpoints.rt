//! CHECK, APPLIED and RAISE: the messages to the backup of a pair.

ghost use Rattle.std.specs.Prelude.{◌≡◌, ◌<◌, IfOk, OnErr, OnOk, Some, length, true};
ghost use Rattle.pw_entry_effects.specs.Can.{CanApply, CanCarry, CanClose};
ghost use Rattle.pw_code.specs.Valid.{IsValid};
ghost use Rattle.pw_image.specs.Image.{HasImage};
ghost use Rattle.pw_world_store.specs.Keeps.{IsChanged, kept_in};
ghost use Rattle.pw_world_state.specs.Changes.{kept_applied};
ghost use Rattle.pw_world_state.specs.Entered.{copied, entered_check_copy, entered_check_end, entered_check_start, image_message, tcp_of};
ghost use Rattle.pw_machine.specs.Stack.{HasRoom};
ghost use Rattle.pw_pair.specs.Bodies.{is_image};
ghost use Rattle.pw_pair.specs.Pairs.{passes, seat_of};
ghost use Rattle.pw_pair.specs.Seats.{is_built, is_flying};
ghost use Rattle.pw_pair.specs.declared.message.CheckKind.TheVariants as kind;

use crate::verbs::{answered, closing, pair_of};
use pw_base::memory::Memory;
use pw_code::context::Context;
use pw_image::encode::encode;
use pw_pair::message::{CheckKind, CheckMessage};
use pw_tmf::disc::Disc;
use pw_world_store::keep::Keep;

/// The message with the image of a context.
fn message_of(terminal: u32, kind: CheckKind, context: &Context) -> Result<CheckMessage, Memory>
    requires image { HasImage context.now }
    requires room { HasRoom context.now }
    ensures is { IfOk result (λ message. message ≡ image_message terminal kind context.now) }
    ensures image { IfOk result (λ message. is_image message.image ≡ true) }
{
    let image = encode(context.screen.cells.allocator(), context)?;
    Ok(CheckMessage {
        terminal,
        kind,
        unit: context.units + 1,
        image,
    })
}

/// The message of a terminal's context at its last answer.
fn start_message<D: Disc>(keep: &Keep<D>, terminal: u32) -> Result<CheckMessage, Memory>
    requires { CanCarry keep.now.system (kept_in D.told keep.now) terminal kind.Start ((kept_in D.told keep.now).terminals terminal).context }
    ensures is { (can : CanCarry keep.now.system (kept_in D.told keep.now) terminal kind.Start ((kept_in D.told keep.now).terminals terminal).context)
        → IfOk result (λ message. message ≡ image_message terminal kind.Start can.own) }
    ensures image { IfOk result (λ message. is_image message.image ≡ true) }
{
    match &keep.seat(terminal).context {
        Some(context) => message_of(terminal, CheckKind::Start, context),
        None => unreachable!(),
    }
}

/// CHECK START: the image of the path before a unit goes to the backup.
pub fn check_start<D: Disc>(keep: &mut Keep<D>, terminal: u32) -> Result<(), Memory>
    requires { CanCarry keep.old.system (kept_in D.told keep.old) terminal kind.Start ((kept_in D.told keep.old).terminals terminal).context }
    ensures ok { OnOk result (IsChanged D.told (entered_check_start keep.old.system terminal) keep.old keep.new) }
    ensures err { OnErr result (keep.new ≡ keep.old) }
{
    let tcp = pair_of(keep.system(), terminal);
    let message = start_message(keep, terminal)?;
    keep.check(tcp, message)
}

/// The message of the start of a terminal's attempt, where one runs, and else of its context.
fn copy_message<D: Disc>(keep: &Keep<D>, terminal: u32) -> Result<CheckMessage, Memory>
    requires { CanCarry keep.now.system (kept_in D.told keep.now) terminal kind.Copy
        (copied ((kept_in D.told keep.now).terminals terminal).start ((kept_in D.told keep.now).terminals terminal).context) }
    ensures is { (can : CanCarry keep.now.system (kept_in D.told keep.now) terminal kind.Copy
        (copied ((kept_in D.told keep.now).terminals terminal).start ((kept_in D.told keep.now).terminals terminal).context))
        → IfOk result (λ message. message ≡ image_message terminal kind.Copy can.own) }
    ensures image { IfOk result (λ message. is_image message.image ≡ true) }
{
    let seat = keep.seat(terminal);
    match (&seat.start, &seat.context) {
        (Some(start), _) => message_of(terminal, CheckKind::Copy, start),
        (None, Some(context)) => message_of(terminal, CheckKind::Copy, context),
        (None, None) => unreachable!(),
    }
}

/// CHECK COPY: the image that a new backup lacks goes to it.
pub fn check_copy<D: Disc>(keep: &mut Keep<D>, terminal: u32) -> Result<(), Memory>
    requires { CanCarry keep.old.system (kept_in D.told keep.old) terminal kind.Copy
        (copied ((kept_in D.told keep.old).terminals terminal).start ((kept_in D.told keep.old).terminals terminal).context) }
    ensures ok { OnOk result (IsChanged D.told (entered_check_copy keep.old.system terminal) keep.old keep.new) }
    ensures err { OnErr result (keep.new ≡ keep.old) }
{
    let tcp = pair_of(keep.system(), terminal);
    let message = copy_message(keep, terminal)?;
    keep.check(tcp, message)
}

/// The message of a terminal's context behind the answer that ends its transaction.
fn end_message<D: Disc>(keep: &Keep<D>, terminal: u32) -> Result<CheckMessage, Memory>
    requires valid { IsValid keep.now.system }
    requires can { CanClose keep.now.system (kept_in D.told keep.now) terminal }
    ensures is { (close : CanClose keep.now.system (kept_in D.told keep.now) terminal)
        → IfOk result (λ message. message ≡ image_message terminal kind.End close.carries.own) }
    ensures image { IfOk result (λ message. is_image message.image ≡ true) }
{
    let Some(at) = &keep.seat(terminal).ready else {
        unreachable!();
    };
    let Some(answer) = closing(&at.verb) else {
        unreachable!();
    };
    let context = answered(keep.system(), &at.context, answer)?;
    message_of(terminal, CheckKind::End, &context)
}

/// CHECK END: the image of the path behind a transaction goes to the backup.
pub fn check_end<D: Disc>(keep: &mut Keep<D>, terminal: u32) -> Result<(), Memory>
    requires valid { IsValid keep.old.system }
    requires can { CanClose keep.old.system (kept_in D.told keep.old) terminal }
    ensures ok { OnOk result (IsChanged D.told (entered_check_end keep.old.system terminal) keep.old keep.new) }
    ensures err { OnErr result (keep.new ≡ keep.old) }
{
    let tcp = pair_of(keep.system(), terminal);
    let message = end_message(keep, terminal)?;
    keep.check(tcp, message)
}

/// A terminal's message in flight is built, where it is not.
fn build<D: Disc>(keep: &mut Keep<D>, tcp: u32, terminal: u32) -> Result<(), Memory>
    requires known { tcp < length keep.old.system.tcps }
    requires flies { passes is_flying (seat_of terminal ((kept_in D.told keep.old).pairs tcp)) ≡ true }
    ensures built { OnOk result (passes is_built (seat_of terminal ((kept_in D.told keep.new).pairs tcp)) ≡ true) }
    ensures system { OnOk result (keep.new.system ≡ keep.old.system) }
    ensures same { OnOk result (kept_applied tcp terminal (kept_in D.told keep.new) ≡ kept_applied tcp terminal (kept_in D.told keep.old)) }
    ensures err { OnErr result (keep.new ≡ keep.old) }
{
    if keep.pair(tcp).is_waiting(terminal) {
        keep.build_here(tcp, terminal)
    } else {
        Ok(())
    }
}

/// APPLIED: the message in flight is taken in, and built before where it is not.
pub fn applied<D: Disc>(keep: &mut Keep<D>, terminal: u32) -> Result<(), Memory>
    requires { CanApply keep.old.system (kept_in D.told keep.old) terminal }
    ensures ok { OnOk result (IsChanged D.told (kept_applied (tcp_of keep.old.system terminal) terminal) keep.old keep.new) }
    ensures err { OnErr result (keep.new ≡ keep.old) }
{
    let tcp = pair_of(keep.system(), terminal);
    build(keep, tcp, terminal)?;
    keep.applied(tcp, terminal);
    Ok(())
}
