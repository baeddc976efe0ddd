ghost use Rattle.std.specs.Prelude.{◌≡◌, ◌<◌, ◌^◌, ◌++◌, ◌∷◌, [], length, All, IfOk, OnOk};
ghost use Rattle.std.specs.Int.{to_be_bytes, w32};
ghost use Rattle.std.specs.List.{flat_map};
ghost use Rattle.pw_disc.specs.Format.{IsMessageOf};
ghost use Rattle.pw_disc.specs.Message.{file_call_bytes, kind_byte, message_of, op_byte, piece_bytes, reply_bytes, rest_bytes, unit_bytes, units_bytes};
ghost use Rattle.pw_disc.specs.Values.{FileCallHasValues, DiscCallHasValues, PieceHasValues, ReplyHasValues, UnitHasValues, UnitsHaveValues};

use crate::call::DiscCall;
use crate::units::Units;
use pw_base::bytes::Bytes;
use pw_base::memory::Memory;
use pw_code::file::{FileCall, FileOp};
use pw_code::unit::Unit;
use std::alloc::Global;

/// The message of a call of a disc. docs/design/STORAGE.md has the format. A length or a count that is too large for its four
/// bytes is taken for want of memory.
pub fn encode_call(alloc: Global, call: &DiscCall) -> Result<Bytes, Memory>
    ensures message { IfOk result (λ message. message ≡ message_of call.now) }
    ensures format { IfOk result (λ message. IsMessageOf message call.now) }
{
    let mut message = Bytes::new(alloc);
    message.push(kind_byte(call))?;
    put_rest(&mut message, call)?;
    Ok(message)
}

/// The kind of a call, as a byte.
fn kind_byte(call: &DiscCall) -> u8
    ensures { result ≡ kind_byte call.now }
{
    match call {
        DiscCall::Begin(_) => 1,
        DiscCall::Operate(_, _) => 2,
        DiscCall::Commit(_, _) => 3,
        DiscCall::BackOut(_, _) => 4,
    }
}

/// Puts what stands behind the kind behind a message's other bytes.
fn put_rest(message: &mut Bytes, call: &DiscCall) -> Result<(), Memory>
    ensures bytes { OnOk result (message.new ≡ message.old ++ rest_bytes call.now) }
    ensures values { OnOk result (DiscCallHasValues call.now) }
{
    match call {
        DiscCall::Begin(unit) => put_unit(message, unit),
        DiscCall::Operate(unit, call) => put_operate(message, unit, call),
        DiscCall::Commit(unit, reply) => put_commit(message, unit, reply),
        DiscCall::BackOut(units, ends) => put_units(message, units, *ends),
    }
}

/// Puts a unit behind other bytes.
fn put_unit(message: &mut Bytes, unit: &Unit) -> Result<(), Memory>
    ensures bytes { OnOk result (message.new ≡ message.old ++ unit_bytes unit.now) }
    ensures values { OnOk result (UnitHasValues unit.now) }
{
    message.extend(&unit.terminal.to_be_bytes())?;
    message.extend(&unit.number.to_be_bytes())?;
    message.extend(&unit.birth.to_be_bytes())?;
    Ok(())
}

/// Puts a number of things in four bytes behind others.
fn put_count(message: &mut Bytes, count: usize) -> Result<(), Memory>
    ensures bytes { OnOk result (message.new ≡ message.old ++ to_be_bytes w32 count) }
    ensures small { OnOk result (count < 2 ^ 32) }
{
    let Ok(count) = u32::try_from(count) else {
        return Err(Memory);
    };
    message.extend(&count.to_be_bytes())?;
    Ok(())
}

/// Puts bytes behind their length.
fn put_piece(message: &mut Bytes, piece: &[u8]) -> Result<(), Memory>
    ensures bytes { OnOk result (message.new ≡ message.old ++ piece_bytes piece.now) }
    ensures values { OnOk result (PieceHasValues piece.now) }
{
    put_count(message, piece.len())?;
    message.extend(piece)?;
    Ok(())
}

/// The byte that stands for an operation.
fn op_byte(op: FileOp) -> u8
    ensures { result ≡ op_byte op }
{
    match op {
        FileOp::Read => 0,
        FileOp::Next => 1,
        FileOp::Write => 2,
        FileOp::Rewrite => 3,
        FileOp::Delete => 4,
        FileOp::ReadLock => 5,
        FileOp::NextLock => 6,
    }
}

/// Puts an operation behind other bytes.
fn put_file_call(message: &mut Bytes, call: &FileCall) -> Result<(), Memory>
    ensures bytes { OnOk result (message.new ≡ message.old ++ file_call_bytes call.now) }
    ensures values { OnOk result (FileCallHasValues call.now) }
{
    message.extend(&call.file.to_be_bytes())?;
    message.push(op_byte(call.op))?;
    put_piece(message, call.key.as_slice())?;
    put_piece(message, call.content.as_slice())?;
    Ok(())
}

/// Puts a unit and its operation behind other bytes.
fn put_operate(message: &mut Bytes, unit: &Unit, call: &FileCall) -> Result<(), Memory>
    ensures bytes { OnOk result (message.new ≡ message.old ++ (unit_bytes unit.now ++ file_call_bytes call.now)) }
    ensures unit { OnOk result (UnitHasValues unit.now) }
    ensures call { OnOk result (FileCallHasValues call.now) }
{
    put_unit(message, unit)?;
    put_file_call(message, call)
}

/// Puts a reply behind other bytes, if there is one.
fn put_reply(message: &mut Bytes, reply: &Option<Bytes>) -> Result<(), Memory>
    ensures bytes { OnOk result (message.new ≡ message.old ++ reply_bytes reply.now) }
    ensures values { OnOk result (ReplyHasValues reply.now) }
{
    match reply {
        None => message.push(0),
        Some(reply) => {
            message.push(1)?;
            put_piece(message, reply.as_slice())
        }
    }
}

/// Puts a unit and its reply behind other bytes.
fn put_commit(message: &mut Bytes, unit: &Unit, reply: &Option<Bytes>) -> Result<(), Memory>
    ensures bytes { OnOk result (message.new ≡ message.old ++ (unit_bytes unit.now ++ reply_bytes reply.now)) }
    ensures unit { OnOk result (UnitHasValues unit.now) }
    ensures reply { OnOk result (ReplyHasValues reply.now) }
{
    put_unit(message, unit)?;
    put_reply(message, reply)
}

/// Puts units, and whether they end, behind other bytes.
fn put_units(message: &mut Bytes, units: &Units, ends: bool) -> Result<(), Memory>
    ensures bytes { OnOk result (message.new ≡ message.old ++ units_bytes units.now ends) }
    ensures values { OnOk result (UnitsHaveValues units.now) }
{
    let (first, others) = units.split_first();
    put_unit(message, &first)?;
    message.push(ends as u8)?;
    put_others(message, others)
}

/// Puts further units behind their number.
fn put_others(message: &mut Bytes, others: &[Unit]) -> Result<(), Memory>
    ensures bytes { OnOk result (message.new
        ≡ message.old ++ (to_be_bytes w32 (length others.now) ++ flat_map unit_bytes others.now)) }
    ensures count { OnOk result (length others.now < 2 ^ 32) }
    ensures values { OnOk result (All UnitHasValues others.now) }
{
    put_count(message, others.len())?;
    put_each(message, others)
}

/// Puts units behind other bytes.
fn put_each(message: &mut Bytes, units: &[Unit]) -> Result<(), Memory>
    ensures bytes { OnOk result (message.new ≡ message.old ++ flat_map unit_bytes units.now) }
    ensures values { OnOk result (All UnitHasValues units.now) }
{
    for unit in units {
        put_unit(message, unit)?;
    }
    Ok(())
}
