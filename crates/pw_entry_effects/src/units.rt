//! BEGIN, COMMIT and BACK: the units of a terminal.

ghost use Rattle.std.specs.Prelude.{◌≡◌, ◌<◌, IfErr, IfOk, OnOk, Some};
ghost use Rattle.pw_entry_effects.specs.Can.{CanBack, CanBeginAt, CanCommit};
ghost use Rattle.pw_code.specs.Valid.{IsValid};
ghost use Rattle.pw_code.specs.declared.verb.Answer.TheVariants as answer;
ghost use Rattle.pw_world_store.specs.Keeps.{IsChanged, IsRefused, kept_in};
ghost use Rattle.pw_world_state.specs.Changes.{attempted, with_attempt};
ghost use Rattle.pw_world_state.specs.Entered.{answering, entered_back, entered_begin, entered_commit};

use crate::verbs::{begins, go_behind};
use pw_base::memory::Memory;
use pw_code::context::Context;
use pw_code::verb::Answer;
use pw_tmf::answer::DiscFault;
use pw_tmf::disc::Disc;
use pw_world_store::keep::Keep;

/// A copy of the context of a terminal at its last answer.
fn start_of<D: Disc>(keep: &Keep<D>, terminal: u32, unit: u32) -> Result<Context, Memory>
    requires { CanBeginAt keep.now.system (kept_in D.told keep.now) terminal unit }
    ensures { IfOk result (λ start. ((kept_in D.told keep.now).terminals terminal).context ≡ Some start) }
{
    match &keep.seat(terminal).context {
        Some(context) => context.duplicate(),
        None => unreachable!(),
    }
}

/// BEGIN of a transaction: an attempt of the unit runs from this start, and the program goes on behind Begin.
fn begin_transaction<D: Disc>(
    keep: &mut Keep<D>,
    terminal: u32,
    unit: u32,
    restarts: u32,
    start: Context,
) -> Result<(), DiscFault>
    requires valid { IsValid keep.old.system }
    requires can { CanBeginAt keep.old.system (kept_in D.told keep.old) terminal unit }
    requires start { ((kept_in D.told keep.old).terminals terminal).context ≡ Some start }
    ensures ok { OnOk result (IsChanged D.told
        (with_attempt terminal unit (λ own. answering keep.old.system (answer.Begun restarts) (attempted own))) keep.old keep.new) }
    ensures err { IfErr result (λ fault. IsRefused D.told fault keep.old keep.new) }
{
    keep.begin_send(terminal, unit, start)?;
    go_behind(keep, terminal, Answer::Begun(restarts));
    Ok(())
}

/// BEGIN: an attempt of the unit runs.
pub fn begin<D: Disc>(
    keep: &mut Keep<D>,
    terminal: u32,
    unit: u32,
    restarts: u32,
) -> Result<(), DiscFault>
    requires valid { IsValid keep.old.system }
    requires can { CanBeginAt keep.old.system (kept_in D.told keep.old) terminal unit }
    ensures ok { OnOk result (IsChanged D.told (entered_begin keep.old.system terminal unit restarts) keep.old keep.new) }
    ensures err { IfErr result (λ fault. IsRefused D.told fault keep.old keep.new) }
{
    let start = start_of(keep, terminal, unit)?;
    if begins(keep, terminal) {
        begin_transaction(keep, terminal, unit, restarts, start)
    } else {
        keep.begin_send(terminal, unit, start)
    }
}

/// COMMIT: the unit ends with its changes.
pub fn commit<D: Disc>(keep: &mut Keep<D>, terminal: u32, unit: u32) -> Result<(), DiscFault>
    requires valid { IsValid keep.old.system }
    requires can { CanCommit keep.old.system (kept_in D.told keep.old) terminal unit }
    ensures ok { OnOk result (IsChanged D.told (entered_commit keep.old.system terminal unit) keep.old keep.new) }
    ensures err { IfErr result (λ fault. IsRefused D.told fault keep.old keep.new) }
{
    keep.commit(terminal, unit, None)?;
    go_behind(keep, terminal, Answer::Ended);
    Ok(())
}

/// BACK: the unit is backed out and ends.
pub fn back<D: Disc>(keep: &mut Keep<D>, terminal: u32, unit: u32) -> Result<(), DiscFault>
    requires valid { IsValid keep.old.system }
    requires can { CanBack keep.old.system (kept_in D.told keep.old) terminal unit }
    ensures ok { OnOk result (IsChanged D.told (entered_back keep.old.system terminal unit) keep.old keep.new) }
    ensures err { IfErr result (λ fault. IsRefused D.told fault keep.old keep.new) }
{
    keep.back(terminal, unit)?;
    go_behind(keep, terminal, Answer::Dropped);
    Ok(())
}
