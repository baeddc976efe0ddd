ghost use Rattle.std.specs.Prelude.{◌≡◌, Some, None, if◌then◌else◌};
ghost use Rattle.std.specs.Int.{w32, w64};
ghost use Rattle.pw_image.specs.Reading.{GivesPart, byte_at, is_any, is_truth, made_at, many_at, number_at};
ghost use Rattle.pw_disc.specs.Reading.{file_call_at, is_op, op_of, others_at, piece_at, reply_at, unit_at};

use pw_base::bytes::Bytes;
use pw_code::file::{FileCall, FileOp};
use pw_code::unit::Unit;
use pw_image::fault::BytesFault;
use std::alloc::Global;

/// The number of four bytes at the front, and the rest.
fn read_u32(bytes: &[u8]) -> Result<(u32, &[u8]), BytesFault>
    ensures { GivesPart (λ x. (x.0, x.1.now)) result (number_at w32 bytes.now) }
{
    if bytes.len() < 4 {
        return Err(BytesFault::Bad);
    }
    let (front, rest) = bytes.split_at(4);
    let number = u32::from_be_bytes([front[0], front[1], front[2], front[3]]);
    Ok((number, rest))
}

/// The number of eight bytes at the front, and the rest.
fn read_u64(bytes: &[u8]) -> Result<(u64, &[u8]), BytesFault>
    ensures { GivesPart (λ x. (x.0, x.1.now)) result (number_at w64 bytes.now) }
{
    if bytes.len() < 8 {
        return Err(BytesFault::Bad);
    }
    let (front, rest) = bytes.split_at(8);
    let number = u64::from_be_bytes([
        front[0], front[1], front[2], front[3], front[4], front[5], front[6], front[7],
    ]);
    Ok((number, rest))
}

/// The byte at the front, and the rest.
pub fn read_byte(bytes: &[u8]) -> Result<(u8, &[u8]), BytesFault>
    ensures { GivesPart (λ x. (x.0, x.1.now)) result (byte_at is_any bytes.now) }
{
    match bytes {
        [] => Err(BytesFault::Bad),
        [byte, rest @ ..] => Ok((*byte, rest)),
    }
}

/// The 0 or 1 at the front, and the rest.
pub fn read_truth(bytes: &[u8]) -> Result<(u8, &[u8]), BytesFault>
    ensures { GivesPart (λ x. (x.0, x.1.now)) result (byte_at is_truth bytes.now) }
{
    match bytes {
        [byte, rest @ ..] if *byte <= 1 => Ok((*byte, rest)),
        _ => Err(BytesFault::Bad),
    }
}

/// A unit, and the rest.
#[tactic(auto, unfolding(crate::specs::Reading::unit_at))]
pub fn read_unit(bytes: &[u8]) -> Result<(Unit, &[u8]), BytesFault>
    ensures { GivesPart (λ x. (x.0, x.1.now)) result (unit_at bytes.now) }
{
    let (terminal, rest) = read_u32(bytes)?;
    let (number, rest) = read_u32(rest)?;
    let (birth, rest) = read_u64(rest)?;
    Ok((
        Unit {
            terminal,
            number,
            birth,
        },
        rest,
    ))
}

/// The bytes behind the length at the front, and the rest.
#[tactic(auto, unfolding(crate::specs::Reading::piece_at))]
fn read_piece(alloc: Global, bytes: &[u8]) -> Result<(Bytes, &[u8]), BytesFault>
    ensures { GivesPart (λ x. (x.0, x.1.now)) result (piece_at bytes.now) }
{
    let (size, rest) = read_u32(bytes)?;
    let size = size as usize;
    if rest.len() < size {
        return Err(BytesFault::Bad);
    }
    let (front, rest) = rest.split_at(size);
    let piece = Bytes::from_slice(alloc, front)?;
    Ok((piece, rest))
}

/// The operation that a byte is; None above 6.
fn op_of(byte: u8) -> Option<FileOp>
    ensures { result ≡ (if is_op byte then Some (op_of byte) else None) }
{
    match byte {
        0 => Some(FileOp::Read),
        1 => Some(FileOp::Next),
        2 => Some(FileOp::Write),
        3 => Some(FileOp::Rewrite),
        4 => Some(FileOp::Delete),
        5 => Some(FileOp::ReadLock),
        6 => Some(FileOp::NextLock),
        _ => None,
    }
}

/// The operation at the front, and the rest.
fn read_op(bytes: &[u8]) -> Result<(FileOp, &[u8]), BytesFault>
    ensures { GivesPart (λ x. (x.0, x.1.now)) result (made_at op_of (byte_at is_op) bytes.now) }
{
    let (byte, rest) = read_byte(bytes)?;
    match op_of(byte) {
        Some(op) => Ok((op, rest)),
        None => Err(BytesFault::Bad),
    }
}

/// An operation on a file, and the rest.
#[tactic(auto, unfolding(crate::specs::Reading::file_call_at))]
pub fn read_file_call(alloc: Global, bytes: &[u8]) -> Result<(FileCall, &[u8]), BytesFault>
    ensures { GivesPart (λ x. (x.0, x.1.now)) result (file_call_at bytes.now) }
{
    let (file, rest) = read_u32(bytes)?;
    let (op, rest) = read_op(rest)?;
    let (key, rest) = read_piece(alloc, rest)?;
    let (content, rest) = read_piece(alloc, rest)?;
    Ok((
        FileCall {
            file,
            op,
            key,
            content,
        },
        rest,
    ))
}

/// A reply, if there is one, and the rest.
#[tactic(auto, unfolding(crate::specs::Reading::reply_at))]
pub fn read_reply(alloc: Global, bytes: &[u8]) -> Result<(Option<Bytes>, &[u8]), BytesFault>
    ensures { GivesPart (λ x. (x.0, x.1.now)) result (reply_at bytes.now) }
{
    let (there, rest) = read_truth(bytes)?;
    if there == 0 {
        return Ok((None, rest));
    }
    let (reply, rest) = read_piece(alloc, rest)?;
    Ok((Some(reply), rest))
}

/// So many units, and the rest.
fn read_many_units(
    alloc: Global,
    count: u32,
    bytes: &[u8],
) -> Result<(Vec<Unit>, &[u8]), BytesFault>
    ensures { GivesPart (λ x. (x.0.items, x.1.now)) result (many_at unit_at count bytes.now) }
{
    let mut units = Vec::new(alloc);
    let mut rest = bytes;
    for _ in 0..count {
        let (unit, behind) = read_unit(rest)?;
        units.push(unit)?;
        rest = behind;
    }
    Ok((units, rest))
}

/// The units behind their number, and the rest.
#[tactic(auto, unfolding(crate::specs::Reading::others_at))]
pub fn read_others(alloc: Global, bytes: &[u8]) -> Result<(Vec<Unit>, &[u8]), BytesFault>
    ensures { GivesPart (λ x. (x.0.items, x.1.now)) result (others_at bytes.now) }
{
    let (count, rest) = read_u32(bytes)?;
    read_many_units(alloc, count, rest)
}
