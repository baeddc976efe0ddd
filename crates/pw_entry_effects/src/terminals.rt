//! SHOW, KEY, AGAIN and SEND: a terminal's program at its verb.

ghost use Rattle.std.specs.Prelude.{◌≡◌, ◌<◌, ◌≤◌, IfOk, OnErr, OnOk, Some, length, slice_get};
ghost use Rattle.pw_entry_effects.specs.Can.{CanAgain, CanAnswer, CanKey, CanSend};
ghost use Rattle.pw_code.specs.Valid.{IsValid};
ghost use Rattle.pw_code_meaning.specs.OfSystem.{entry_at};
ghost use Rattle.pw_world_store.specs.Keeps.{IsChanged, kept_in};
ghost use Rattle.pw_world_state.specs.Entered.{entered_again, entered_key, entered_send, entered_show, lines_of};
ghost use Rattle.pw_paired.specs.Terminal.{kept_reply};

use crate::verbs::go_behind;
use pw_base::bytes::Bytes;
use pw_base::memory::Memory;
use pw_code::copies::Duplicate;
use pw_code::entry::EntryLine;
use pw_code::verb::{Answer, Verb};
use pw_tmf::disc::Disc;
use pw_world_store::keep::Keep;

/// SHOW: the program goes on. It takes no memory.
pub fn show<D: Disc>(keep: &mut Keep<D>, terminal: u32)
    requires valid { IsValid keep.old.system }
    requires can { CanAnswer keep.old.system (kept_in D.told keep.old) terminal }
    ensures { IsChanged D.told (entered_show keep.old.system terminal) keep.old keep.new }
{
    go_behind(keep, terminal, Answer::Shown);
}

/// A copy of an entry line of a terminal, which count from 1.
fn line_of<D: Disc>(keep: &Keep<D>, terminal: u32, k: u32) -> Result<EntryLine, Memory>
    requires { CanKey keep.now.system (kept_in D.told keep.now) terminal k }
    ensures { IfOk result (λ line. line ≡ entry_at (lines_of (slice_get keep.now.system.terminals terminal)) k) }
{
    let info = &keep.system().terminals.as_slice()[terminal as usize];
    info.entries.as_slice()[k as usize - 1].copy(info.name.allocator())
}

/// KEY: the program goes on with an entry line.
pub fn key<D: Disc>(keep: &mut Keep<D>, terminal: u32, k: u32) -> Result<(), Memory>
    requires valid { IsValid keep.old.system }
    requires can { CanKey keep.old.system (kept_in D.told keep.old) terminal k }
    ensures ok { OnOk result (IsChanged D.told (entered_key keep.old.system terminal k) keep.old keep.new) }
    ensures err { OnErr result (keep.new ≡ keep.old) }
{
    let line = line_of(keep, terminal, k)?;
    go_behind(keep, terminal, Answer::Entry(line));
    Ok(())
}

/// A copy of the reply that is kept of a terminal's last unit.
fn reply_of<D: Disc>(keep: &Keep<D>, terminal: u32) -> Result<Bytes, Memory>
    requires { CanAgain keep.now.system (kept_in D.told keep.now) terminal }
    ensures { IfOk result (λ reply. reply ≡ kept_reply ((kept_in D.told keep.now).disc.ended terminal)) }
{
    let alloc = keep.system().terminals.as_slice()[terminal as usize]
        .name
        .allocator();
    match keep.ended(terminal) {
        Some(ended) => match &ended.reply {
            Some(reply) => reply.copy(alloc),
            None => Ok(Bytes::new(alloc)),
        },
        None => unreachable!(),
    }
}

/// AGAIN: the program goes on with the reply that is kept.
pub fn again<D: Disc>(keep: &mut Keep<D>, terminal: u32) -> Result<(), Memory>
    requires valid { IsValid keep.old.system }
    requires can { CanAgain keep.old.system (kept_in D.told keep.old) terminal }
    ensures ok { OnOk result (IsChanged D.told (entered_again keep.old.system terminal) keep.old keep.new) }
    ensures err { OnErr result (keep.new ≡ keep.old) }
{
    let reply = reply_of(keep, terminal)?;
    go_behind(keep, terminal, Answer::Replied(reply));
    Ok(())
}

/// A copy of the message that a terminal's program sends.
fn message_of<D: Disc>(keep: &Keep<D>, terminal: u32, class: u32) -> Result<Bytes, Memory>
    requires { CanSend keep.now.system (kept_in D.told keep.now) terminal class }
    ensures { (can : CanSend keep.now.system (kept_in D.told keep.now) terminal class)
        → IfOk result (λ message. message ≡ can.message) }
{
    match &keep.seat(terminal).ready {
        Some(at) => match &at.verb {
            Verb::Send { message, .. } => message.copy(message.allocator()),
            _ => unreachable!(),
        },
        None => unreachable!(),
    }
}

/// SEND: the program's message waits as a request of the unit.
pub fn send<D: Disc>(keep: &mut Keep<D>, terminal: u32, unit: u32, class: u32) -> Result<(), Memory>
    requires { CanSend keep.old.system (kept_in D.told keep.old) terminal class }
    ensures ok { OnOk result (IsChanged D.told (entered_send keep.old.system terminal unit class) keep.old keep.new) }
    ensures err { OnErr result (keep.new ≡ keep.old) }
{
    let message = message_of(keep, terminal, class)?;
    keep.send(terminal, unit, class, message)
}
