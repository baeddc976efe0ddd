ghost use Rattle.std.specs.Prelude.{◌≡◌, None, Some, Err, IfOk};
ghost use Rattle.pw_disc.specs.Format.{IsMessageOf};
ghost use Rattle.pw_image.specs.Reading.{GivesPart};
ghost use Rattle.pw_disc.specs.Reading.{back_out_at, begin_at, call_at, call_behind, call_in, commit_at, operate_at};
ghost use Rattle.pw_disc.specs.declared.call.DiscCall.{DiscCall};

use crate::call::DiscCall;
use crate::reading::{read_byte, read_file_call, read_others, read_reply, read_truth, read_unit};
use crate::units::Units;
use pw_image::fault::BytesFault;
use std::alloc::Global;

/// The beginning of a unit's attempt, and the rest.
#[tactic(auto, unfolding(crate::specs::Reading::begin_at))]
fn read_begin(bytes: &[u8]) -> Result<(DiscCall, &[u8]), BytesFault>
    ensures { GivesPart (λ x. (x.0, x.1.now)) result (begin_at bytes.now) }
{
    let (unit, rest) = read_unit(bytes)?;
    Ok((DiscCall::Begin(unit), rest))
}

/// An operation of a unit, and the rest.
#[tactic(auto, unfolding(crate::specs::Reading::operate_at))]
fn read_operate(alloc: Global, bytes: &[u8]) -> Result<(DiscCall, &[u8]), BytesFault>
    ensures { GivesPart (λ x. (x.0, x.1.now)) result (operate_at bytes.now) }
{
    let (unit, rest) = read_unit(bytes)?;
    let (call, rest) = read_file_call(alloc, rest)?;
    Ok((DiscCall::Operate(unit, call), rest))
}

/// The commit of a unit, and the rest.
#[tactic(auto, unfolding(crate::specs::Reading::commit_at))]
fn read_commit(alloc: Global, bytes: &[u8]) -> Result<(DiscCall, &[u8]), BytesFault>
    ensures { GivesPart (λ x. (x.0, x.1.now)) result (commit_at bytes.now) }
{
    let (unit, rest) = read_unit(bytes)?;
    let (reply, rest) = read_reply(alloc, rest)?;
    Ok((DiscCall::Commit(unit, reply), rest))
}

/// The units that are backed out, and the rest.
#[tactic(auto, unfolding(crate::specs::Reading::back_out_at))]
fn read_back_out(alloc: Global, bytes: &[u8]) -> Result<(DiscCall, &[u8]), BytesFault>
    ensures { GivesPart (λ x. (x.0, x.1.now)) result (back_out_at bytes.now) }
{
    let (first, rest) = read_unit(bytes)?;
    let (ends, rest) = read_truth(rest)?;
    let (others, rest) = read_others(alloc, rest)?;
    let units = Units::new(alloc, first, &others)?;
    Ok((DiscCall::BackOut(units, ends == 1), rest))
}

/// A call of a kind, and the rest.
fn read_kind(alloc: Global, kind: u8, bytes: &[u8]) -> Result<(DiscCall, &[u8]), BytesFault>
    ensures { GivesPart (λ x. (x.0, x.1.now)) result (call_behind kind bytes.now) }
{
    match kind {
        1 => read_begin(bytes),
        2 => read_operate(alloc, bytes),
        3 => read_commit(alloc, bytes),
        4 => read_back_out(alloc, bytes),
        _ => Err(BytesFault::Bad),
    }
}

/// A call, and the rest.
#[tactic(auto, unfolding(crate::specs::Reading::call_at))]
fn read_call(alloc: Global, bytes: &[u8]) -> Result<(DiscCall, &[u8]), BytesFault>
    ensures { GivesPart (λ x. (x.0, x.1.now)) result (call_at bytes.now) }
{
    let (kind, rest) = read_byte(bytes)?;
    read_kind(alloc, kind, rest)
}

/// The call that the bytes are read as.
#[tactic(auto, unfolding(crate::specs::Reading::call_in))]
fn read_message(alloc: Global, bytes: &[u8]) -> Result<DiscCall, BytesFault>
    ensures { GivesPart (λ call. call) result (call_in bytes.now) }
{
    let (call, rest) = read_call(alloc, bytes)?;
    if !rest.is_empty() {
        return Err(BytesFault::Bad);
    }
    Ok(call)
}

/// The call that a disc message is of. It is `Bad` exactly where the bytes are no message; docs/design/STORAGE.md has the format.
pub fn decode_call(alloc: Global, bytes: &[u8]) -> Result<DiscCall, BytesFault>
    // What is read has these bytes as its message, and no other call has.
    ensures message { IfOk result (IsMessageOf bytes.now) }
    ensures only { IfOk result (λ own. (call : DiscCall) → IsMessageOf bytes.now call → call ≡ own) }
    // Bytes are bad only where they are the message of no call.
    ensures bad { result ≡ Err BytesFault.Bad → (call : DiscCall) → ¬ IsMessageOf bytes.now call }
{
    read_message(alloc, bytes)
}
