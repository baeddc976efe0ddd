//! What a change of a summed disk writes below.

ghost use Rattle.std.specs.Prelude.{◌≡◌, ◌+◌, ◌-◌, ◌^◌, ◌<◌, ◌≤◌, length, IfOk, IfSome, OnErr};
ghost use Rattle.pw_summed_disk.specs.Plans.{IsOpening, IsPlan, IsStaging, bytes_below};

use crate::extent::{OPEN, SHUT, seal};
use pw_base::bytes::Bytes;
use pw_base::memory::Memory;
use std::alloc::Global;

/// What is known of what stands behind the shut gate below.
#[derive(Clone, Copy, Debug, PartialEq, Eq)]
pub enum Behind {
    /// It was read, and may be anything.
    Unknown,
    /// Nothing.
    Nothing,
    /// The piece that was staged last, and its gate.
    Staged,
}

/// How a summed disk stands.
#[derive(Clone, Copy, Debug, PartialEq, Eq)]
pub struct DiskStanding {
    /// The place of the shut gate of its content.
    pub end: usize,
    /// The place of the shut gate below.
    pub gate: u64,
    /// What stands behind that gate.
    pub known: Behind,
}

/// What is written below.
#[derive(Debug, Drop)]
pub enum Below {
    /// A sealed piece and a shut gate.
    Sealed(Bytes),
    /// An open gate.
    Open,
}

impl Below {
    /// The bytes that are written.
    pub fn bytes(&self) -> &[u8]
        ensures { result.now ≡ bytes_below self.now }
    {
        match self {
            Below::Sealed(bytes) => bytes.as_slice(),
            Below::Open => &OPEN,
        }
    }
}

/// A write below, and how the disk stands behind it.
#[derive(Debug, Drop)]
pub struct PlannedWrite {
    pub place: u64,
    pub below: Below,
    pub next: DiskStanding,
}

/// What writes a piece at a place of the content, which has so many bytes, if it is one of the two writes that a summed disk makes.
pub fn plan(
    alloc: Global,
    standing: DiskStanding,
    total: usize,
    at: u64,
    piece: &[u8],
) -> Result<Option<PlannedWrite>, Memory>
    requires end { standing.end < total }
    requires gate { standing.gate + 4 < 2 ^ 64 }
    requires next { standing.known ≡ Behind.Staged → standing.end + 2 ≤ total }
    requires fits { standing.known ≡ Behind.Staged → standing.gate + (22 + (total - standing.end)) < 2 ^ 64 }
    ensures planned { IfOk result (λ found. IfSome found (IsPlan standing total at piece.now)) }
    ensures past { OnErr result (total < at + length piece.now) }
{
    match standing.known {
        Behind::Nothing if at == total as u64 => staging(alloc, standing, piece),
        Behind::Staged if at == standing.end as u64 && piece.len() == 1 && piece[0] == 1 => {
            Ok(Some(opening(standing, total)))
        }
        _ => Ok(None),
    }
}

/// Seals a piece behind the shut gate, if a shut gate is its last byte.
fn staging(
    alloc: Global,
    standing: DiskStanding,
    piece: &[u8],
) -> Result<Option<PlannedWrite>, Memory>
    requires { standing.gate + 4 < 2 ^ 64 }
    ensures planned { IfOk result (λ found. IfSome found (IsStaging standing piece.now)) }
    ensures past { OnErr result (0 < length piece.now) }
{
    let Some((&0, front)) = piece.split_last() else {
        return Ok(None);
    };
    let mut below = seal(alloc, front)?;
    below.extend(&SHUT)?;
    let place = standing.gate + 4;
    let Some(_end) = place.checked_add(below.len() as u64) else {
        return Err(Memory);
    };
    let known = Behind::Staged;
    Ok(Some(PlannedWrite {
        place,
        below: Below::Sealed(below),
        next: DiskStanding { known, ..standing },
    }))
}

/// Opens the gate before what is staged.
fn opening(standing: DiskStanding, total: usize) -> PlannedWrite
    requires end { standing.end + 2 ≤ total }
    requires gate { standing.gate + (22 + (total - standing.end)) < 2 ^ 64 }
    ensures { IsOpening standing total result }
{
    PlannedWrite {
        place: standing.gate,
        below: Below::Open,
        next: DiskStanding {
            end: total - 1,
            gate: standing.gate + (18 + (total - standing.end)) as u64,
            known: Behind::Nothing,
        },
    }
}
