ghost use Rattle.std.specs.Prelude.{◌≡◌, ◌<◌, length};
ghost use Rattle.std.specs.Int.{w16, w32, w64};
ghost use Rattle.pw_image.specs.Reading.{GivesPart, number_at, byte_at, block_at, many_at, is_any, is_truth, return_at, storage_at, returns_at, frame_at, frames_at, screen_at};

use crate::fault::BytesFault;
use pw_base::bytes::Bytes;
use pw_base::list::List;
use pw_code::context::{Frame, Return};
use pw_code::screen::{CELLS, ScreenImage};
use std::alloc::Global;

/// The most characters of a program in an image.
const MAX_STORAGE: u32 = 64_000;

/// The number of two bytes at the front, and the rest.
pub fn read_u16(bytes: &[u8]) -> Result<(u16, &[u8]), BytesFault>
    ensures { GivesPart (λ x. (x.0, x.1.now)) result (number_at w16 bytes.now) }
{
    if bytes.len() < 2 {
        return Err(BytesFault::Bad);
    }
    let (front, rest) = bytes.split_at(2);
    Ok((u16::from_be_bytes([front[0], front[1]]), rest))
}

/// The number of four bytes at the front, and the rest.
pub fn read_u32(bytes: &[u8]) -> Result<(u32, &[u8]), BytesFault>
    ensures { GivesPart (λ x. (x.0, x.1.now)) result (number_at w32 bytes.now) }
{
    if bytes.len() < 4 {
        return Err(BytesFault::Bad);
    }
    let (front, rest) = bytes.split_at(4);
    let number = u32::from_be_bytes([front[0], front[1], front[2], front[3]]);
    Ok((number, rest))
}

/// The number of eight bytes at the front, and the rest.
fn read_u64(bytes: &[u8]) -> Result<(u64, &[u8]), BytesFault>
    ensures { GivesPart (λ x. (x.0, x.1.now)) result (number_at w64 bytes.now) }
{
    if bytes.len() < 8 {
        return Err(BytesFault::Bad);
    }
    let (front, rest) = bytes.split_at(8);
    let number = u64::from_be_bytes([
        front[0], front[1], front[2], front[3], front[4], front[5], front[6], front[7],
    ]);
    Ok((number, rest))
}

/// The byte at the front, and the rest.
fn read_byte(bytes: &[u8]) -> Result<(u8, &[u8]), BytesFault>
    ensures { GivesPart (λ x. (x.0, x.1.now)) result (byte_at is_any bytes.now) }
{
    match bytes {
        [] => Err(BytesFault::Bad),
        [byte, rest @ ..] => Ok((*byte, rest)),
    }
}

/// The 0 or 1 at the front, and the rest.
pub fn read_truth(bytes: &[u8]) -> Result<(u8, &[u8]), BytesFault>
    ensures { GivesPart (λ x. (x.0, x.1.now)) result (byte_at is_truth bytes.now) }
{
    match bytes {
        [byte, rest @ ..] if *byte <= 1 => Ok((*byte, rest)),
        _ => Err(BytesFault::Bad),
    }
}

/// So many bytes from the front, and the rest.
fn read_block(alloc: Global, count: usize, bytes: &[u8]) -> Result<(Bytes, &[u8]), BytesFault>
    ensures { GivesPart (λ x. (x.0, x.1.now)) result (block_at count bytes.now) }
{
    if bytes.len() < count {
        return Err(BytesFault::Bad);
    }
    let (front, rest) = bytes.split_at(count);
    let block = Bytes::from_slice(alloc, front)?;
    Ok((block, rest))
}

/// The cells of a screen, and the rest.
pub fn read_screen(alloc: Global, bytes: &[u8]) -> Result<(ScreenImage, &[u8]), BytesFault>
    ensures { GivesPart (λ x. (x.0, x.1.now)) result (screen_at bytes.now) }
{
    if bytes.len() < CELLS {
        return Err(BytesFault::Bad);
    }
    let (front, rest) = bytes.split_at(CELLS);
    let cells = Bytes::from_slice(alloc, front)?;
    Ok((ScreenImage { cells }, rest))
}

/// An active PERFORM, and the rest.
#[tactic(auto, unfolding(crate::specs::Reading::return_at))]
fn read_return(bytes: &[u8]) -> Result<(Return, &[u8]), BytesFault>
    ensures { GivesPart (λ x. (x.0, x.1.now)) result (return_at bytes.now) }
{
    let (resume, rest) = read_u32(bytes)?;
    let (until, rest) = read_u32(rest)?;
    let (turns, rest) = read_u64(rest)?;
    Ok((
        Return {
            resume,
            until,
            turns,
        },
        rest,
    ))
}

/// So many active PERFORMs, and the rest.
fn read_many_returns(
    alloc: Global,
    count: u8,
    bytes: &[u8],
) -> Result<(Vec<Return>, &[u8]), BytesFault>
    ensures { GivesPart (λ x. (x.0.items, x.1.now)) result (many_at return_at count bytes.now) }
{
    let mut returns = Vec::new(alloc);
    let mut rest = bytes;
    for _ in 0..count {
        let (active, behind) = read_return(rest)?;
        returns.push(active)?;
        rest = behind;
    }
    Ok((returns, rest))
}

/// The active PERFORMs of a program, and the rest.
#[tactic(auto, unfolding(crate::specs::Reading::returns_at))]
fn read_returns(alloc: Global, bytes: &[u8]) -> Result<(List<Return>, &[u8]), BytesFault>
    ensures { GivesPart (λ x. (x.0, x.1.now)) result (returns_at bytes.now) }
{
    let (count, rest) = read_byte(bytes)?;
    if count > 64 {
        return Err(BytesFault::Bad);
    }
    let (returns, rest) = read_many_returns(alloc, count, rest)?;
    Ok((List::from_vec(returns), rest))
}

/// The characters of a program, and the rest.
#[tactic(auto, unfolding(crate::specs::Reading::storage_at))]
fn read_storage(alloc: Global, bytes: &[u8]) -> Result<(Bytes, &[u8]), BytesFault>
    ensures { GivesPart (λ x. (x.0, x.1.now)) result (storage_at bytes.now) }
{
    let (count, rest) = read_u32(bytes)?;
    if count > MAX_STORAGE {
        return Err(BytesFault::Bad);
    }
    read_block(alloc, count as usize, rest)
}

/// An active program, and the rest.
#[tactic(auto, unfolding(crate::specs::Reading::frame_at))]
fn read_frame(alloc: Global, bytes: &[u8]) -> Result<(Frame, &[u8]), BytesFault>
    ensures { GivesPart (λ x. (x.0, x.1.now)) result (frame_at bytes.now) }
{
    let (program, rest) = read_u16(bytes)?;
    let (at, rest) = read_u32(rest)?;
    let (storage, rest) = read_storage(alloc, rest)?;
    let (returns, rest) = read_returns(alloc, rest)?;
    Ok((
        Frame {
            program,
            at,
            storage,
            returns,
        },
        rest,
    ))
}

/// So many active programs, and the rest.
fn read_many_frames(
    alloc: Global,
    count: u8,
    bytes: &[u8],
) -> Result<(Vec<Frame>, &[u8]), BytesFault>
    ensures { GivesPart (λ x. (x.0.items, x.1.now)) result (many_at frame_at count bytes.now) }
{
    let mut frames = Vec::new(alloc);
    let mut rest = bytes;
    for _ in 0..count {
        let (frame, behind) = read_frame(alloc, rest)?;
        frames.push(frame)?;
        rest = behind;
    }
    Ok((frames, rest))
}

/// The active programs, and the rest.
#[tactic(auto, unfolding(crate::specs::Reading::frames_at))]
pub fn read_frames(alloc: Global, bytes: &[u8]) -> Result<(List<Frame>, &[u8]), BytesFault>
    ensures { GivesPart (λ x. (x.0, x.1.now)) result (frames_at bytes.now) }
{
    let (count, rest) = read_byte(bytes)?;
    if count < 1 || count > 9 {
        return Err(BytesFault::Bad);
    }
    let (frames, rest) = read_many_frames(alloc, count, rest)?;
    Ok((List::from_vec(frames), rest))
}
