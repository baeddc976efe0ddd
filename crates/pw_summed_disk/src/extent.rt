//! Extents: sealed pieces, and the gates before them.

ghost use Rattle.std.specs.Prelude.{◌≡◌, ◌++◌, ◌+◌, ◌^◌, ◌<◌, ◌≤◌, length, option_map, IfOk, OnOk};
ghost use Rattle.pw_summed_disk.specs.Extents.{piece_in, sealed, sum_in, word_of};

use crate::sum::sum_of;
use pw_base::bytes::Bytes;
use pw_base::memory::Memory;
use std::alloc::Global;

/// A gate that is open.
pub const OPEN: [u8; 4] = [79, 80, 69, 78];

/// A gate that is shut.
pub const SHUT: [u8; 4] = [83, 72, 85, 84];

/// A sealed piece. One whose length is too large for its four bytes is taken for want of memory.
pub fn seal(alloc: Global, piece: &[u8]) -> Result<Bytes, Memory>
    ensures sealed { IfOk result (λ made. made ≡ sealed piece.now) }
    ensures small { OnOk result (length piece.now < 2 ^ 32) }
{
    let Ok(length) = u32::try_from(piece.len()) else {
        return Err(Memory);
    };
    let mut made = Bytes::from_slice(alloc, &length.to_be_bytes())?;
    made.extend(&length.to_be_bytes())?;
    made.extend(&sum_of(piece).to_be_bytes())?;
    made.extend(piece)?;
    Ok(made)
}

/// The number that the first four bytes are.
#[tactic(auto, unfolding(crate::specs::Extents::word_of))]
pub fn word_of(bytes: &[u8]) -> u32
    requires { 4 ≤ length bytes.now }
    ensures { result ≡ word_of bytes.now }
{
    u32::from_be_bytes([bytes[0], bytes[1], bytes[2], bytes[3]])
}

/// The number that the first eight bytes are.
#[tactic(auto, unfolding(crate::specs::Extents::sum_in))]
fn sum_in(bytes: &[u8]) -> u64
    requires { 8 ≤ length bytes.now }
    ensures { result ≡ sum_in bytes.now }
{
    u64::from_be_bytes([
        bytes[0], bytes[1], bytes[2], bytes[3], bytes[4], bytes[5], bytes[6], bytes[7],
    ])
}

/// The piece that is sealed in the first bytes, if they are a sealed piece.
pub fn piece_in(bytes: &[u8]) -> Option<&[u8]>
    ensures { option_map (λ piece. piece.now) result ≡ piece_in bytes.now }
{
    if bytes.len() < 16 {
        return None;
    }
    let length = word_of(bytes) as usize;
    if bytes.len() - 16 < length {
        return None;
    }
    let piece = &bytes[16..16 + length];
    if word_of(&bytes[4..]) as usize == length && sum_in(&bytes[8..]) == sum_of(piece) {
        Some(piece)
    } else {
        None
    }
}
