ghost use Rattle.std.specs.Prelude.{◌≡◌, ◌+◌, ◌-◌, ◌<◌, ◌≤◌, [], length, Some, None, option_map, IfOk, IfErr, OnOk, OnErr, is_err, vec_len, vec_capacity};
ghost use Rattle.pw_volume.specs.Crash.{written, CountsFaults};
ghost use Rattle.pw_volume.specs.Life.{Lives};
ghost use Rattle.pw_volume.specs.MemDisk.{AreSame, crashed, left_by_crash, life_by};

use crate::disk::Disk;
use crate::fault::{DiskFailed, WriteFault};
use pw_base::memory::Memory;
use std::alloc::Global;
use std::marker::Model;

/// A disk in memory, which may be told to stop, and which may crash. A write takes the memory that the next sync needs.
#[derive(Drop)]
pub struct MemDisk {
    bytes: Vec<u8>,
    synced: Vec<u8>,
    /// Up to here nothing has changed since the last sync, so that a sync copies what is behind it.
    same: usize,
    left: Option<u64>,
    faults: u64,
}

impl Model for MemDisk {
    ghost use Rattle.std.specs.Prelude.{◌≤◌, vec_len, vec_capacity};
    ghost use Rattle.pw_volume.specs.MemDisk.{AreSame, MemDiskState};

    ghost Value = { MemDiskState };

    ghost view = { λ disk. record {
      bytes = disk.bytes.items;
      synced = disk.synced.items;
      left = disk.left;
      faults = disk.faults;
    } };

    ghost invariant = { λ disk. record {
      room : vec_len disk.bytes ≤ vec_capacity disk.synced;
      same : AreSame disk.same disk.bytes.items disk.synced.items;
    } };
}

impl MemDisk {
    /// An empty disk without a stop.
    pub fn new(alloc: Global) -> Result<MemDisk, Memory>
        ensures { IfOk result (λ disk. disk ≡ record { bytes = []; synced = []; left = None; faults = 0 }) }
    {
        Ok(MemDisk {
            bytes: Vec::new(alloc),
            synced: Vec::new(alloc),
            same: 0,
            left: None,
            faults: 0,
        })
    }

    /// Lets so many more writes, cuts and syncs pass; a write that answers Memory is not counted. Each later call of the
    /// disk fails, and no other one does.
    pub fn stop_after(&mut self, calls: u64)
        ensures { self.new ≡ record self.old { left = Some calls } }
    {
        self.left = Some(calls);
    }

    /// A crash: it leaves what a read gives where `keep` is true, else what the last sync left. The new disk has no stop.
    pub fn crash(self, alloc: Global, keep: bool) -> Result<MemDisk, (MemDisk, Memory)>
        ensures ok { IfOk result (λ disk. disk ≡ crashed keep self) }
        ensures err { IfErr result (λ error. error.0 ≡ self) }
    {
        let Ok((bytes, synced)) = twice(alloc, self.kept(keep)) else {
            return Err((self, Memory));
        };
        Ok(MemDisk {
            bytes,
            synced,
            same: 0,
            left: None,
            faults: self.faults,
        })
    }

    /// What a crash leaves.
    fn kept(&self, keep: bool) -> &[u8]
        ensures { result.now ≡ left_by_crash keep self.now }
    {
        if keep {
            self.bytes.as_slice()
        } else {
            self.synced.as_slice()
        }
    }
}

/// Two copies, each with room for the other.
fn twice(alloc: Global, bytes: &[u8]) -> Result<(Vec<u8>, Vec<u8>), Memory>
    ensures { IfOk result (λ copies. (copies.0.items ≡ bytes.now) × (copies.1.items ≡ bytes.now)) }
{
    let first = Vec::from_slice(alloc, bytes)?;
    let second = Vec::from_slice(alloc, bytes)?;
    Ok((first, second))
}

/// Fails where no call is left.
fn admit(left: Option<u64>, faults: &mut u64) -> Result<(), DiskFailed>
    ensures lives { Lives (life_by left) (is_err result) }
    ensures count { CountsFaults result faults.old faults.new }
{
    if left == Some(0) {
        *faults = faults.saturating_add(1);
        return Err(DiskFailed);
    }
    Ok(())
}

/// One call fewer is left.
fn spend(left: Option<u64>) -> Option<u64>
    ensures { result ≡ option_map (λ calls. calls - 1) left }
{
    left.map(|calls| calls.saturating_sub(1))
}

/// Writes a piece, with room for the next sync. An `Err` changes neither list.
fn overwrite(
    bytes: &mut Vec<u8>,
    synced: &mut Vec<u8>,
    at: usize,
    piece: &[u8],
) -> Result<(), Memory>
    requires at { at ≤ vec_len bytes.old }
    requires room { vec_len bytes.old ≤ vec_capacity synced.old }
    ensures ok { OnOk result (bytes.new.items ≡ written at piece.now bytes.old.items) }
    ensures err { OnErr result (bytes.new.items ≡ bytes.old.items) }
    ensures full { OnErr result (vec_len bytes.old < at + length piece.now) }
    ensures synced { synced.new.items ≡ synced.old.items }
    ensures room { vec_len bytes.new ≤ vec_capacity synced.new }
{
    let Some(end) = at.checked_add(piece.len()) else {
        return Err(Memory);
    };
    if end > bytes.len() {
        synced.reserve(end.saturating_sub(synced.len()))?;
        bytes.resize(end, 0)?;
    }
    bytes[at..end].copy_from_slice(piece);
    Ok(())
}

/// Copies the bytes behind those that are the same, for which there is room.
fn settle(bytes: &[u8], same: usize, synced: &mut Vec<u8>)
    requires room { length bytes.now ≤ vec_capacity synced.old }
    requires same { AreSame same bytes.now synced.old.items }
    ensures synced { synced.new.items ≡ bytes.now }
    ensures room { vec_capacity synced.old ≤ vec_capacity synced.new }
{
    synced.truncate(same);
    let Ok(()) = synced.extend_from_slice(&bytes[same..]) else {
        unreachable!()
    };
}

impl Disk for MemDisk {
    ghost use Rattle.std.specs.Prelude.{refl};
    ghost use Rattle.std.proofs.Common.{inl, inr};
    ghost use Rattle.pw_volume.specs.MemDisk.{MayLeave, life_by};

    ghost bytes = { λ disk. disk.bytes };

    ghost may_leave = { MayLeave };

    ghost settled = { λ disk. disk.synced };

    ghost faults = { λ disk. disk.faults };

    ghost life = { λ disk. life_by disk.left };

    ghost bytes_may_stay = { λ disk. inl refl };

    ghost settled_may_stay = { λ disk. inr refl };

    fn length(&mut self) -> Result<u64, DiskFailed> {
        admit(self.left, &mut self.faults)?;
        Ok(self.bytes.len() as u64)
    }

    fn read(&mut self, at: u64, into: &mut [u8]) -> Result<(), DiskFailed> {
        admit(self.left, &mut self.faults)?;
        let at = at as usize;
        into.copy_from_slice(&self.bytes[at..at + into.len()]);
        Ok(())
    }

    fn write_at(&mut self, at: u64, piece: &[u8]) -> Result<(), WriteFault> {
        admit(self.left, &mut self.faults)?;
        overwrite(&mut self.bytes, &mut self.synced, at as usize, piece)?;
        self.same = self.same.min(at as usize);
        self.left = spend(self.left);
        Ok(())
    }

    fn cut(&mut self, length: u64) -> Result<(), DiskFailed> {
        admit(self.left, &mut self.faults)?;
        self.bytes.truncate(length as usize);
        self.same = self.same.min(length as usize);
        self.left = spend(self.left);
        Ok(())
    }

    fn sync(&mut self) -> Result<(), DiskFailed> {
        admit(self.left, &mut self.faults)?;
        settle(&self.bytes, self.same, &mut self.synced);
        self.same = self.bytes.len();
        self.left = spend(self.left);
        Ok(())
    }
}
