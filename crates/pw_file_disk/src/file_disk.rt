ghost use Rattle.std.specs.Prelude.{◌≡◌, ◌+◌, ◌<◌, ◌≤◌, length, None, false, true, OnErr, OnOk, vec_len};
ghost use Rattle.pw_volume.specs.Crash.{written, CountsFaults};
ghost use Rattle.pw_file_disk.specs.FileDisk.{IsMirror, opened_with};

use crate::change::OpenChange;
use crate::fault::FileFailure;
use crate::host::HostFile;
use crate::raw::RawFile;
use pw_base::memory::Memory;
use pw_volume::disk::Disk;
use pw_volume::fault::{DiskFailed, WriteFault};
use std::marker::Model;
use std::snapshot::Snapshot;

/// A disk over one file of the system, whose bytes it has in memory too: a read gives these. At most one change is not
/// synced, since the next one syncs it first. Behind a fault of the file each call fails, and none touches the file.
#[derive(Drop)]
pub struct FileDisk<F: RawFile> {
    file: F,
    bytes: Vec<u8>,
    settled: Snapshot<Vec<u8>>,
    /// The change behind the file's last sync.
    change: Option<OpenChange>,
    is_broken: bool,
    faults: u64,
}

impl<F: RawFile> Model for FileDisk<F> {
    ghost use Rattle.std.specs.Prelude.{◌≡◌, false};
    ghost use Rattle.pw_file_disk.specs.FileDisk.{FileDiskState, IsMirror};

    ghost Value = { FileDiskState };

    ghost view = { λ disk. record {
      bytes = disk.bytes.items;
      settled = disk.settled.value.items;
      synced = F.synced disk.file;
      change = disk.change;
      faults = disk.faults;
    } };

    ghost invariant = { λ disk. disk.is_broken ≡ false
        → IsMirror disk.bytes.items (F.has disk.file) (F.synced disk.file) disk.change };
}

impl<F: RawFile> FileDisk<F> {
    /// A disk over a file that has these bytes, all of them synced.
    pub fn new(file: F, bytes: Vec<u8>) -> FileDisk<F>
        requires has { F.has file ≡ bytes.items }
        requires synced { F.synced file ≡ bytes.items }
        ensures { result ≡ opened_with bytes.items }
    {
        let settled = Snapshot::of(&bytes);
        FileDisk {
            file,
            bytes,
            settled,
            change: None,
            is_broken: false,
            faults: 0,
        }
    }
}

/// Fails where the file has failed.
fn admit(is_broken: bool, faults: &mut u64) -> Result<(), DiskFailed>
    ensures goes { OnOk result (is_broken ≡ false) }
    ensures broken { OnErr result (is_broken ≡ true) }
    ensures count { CountsFaults result faults.old faults.new }
{
    if is_broken {
        *faults = faults.saturating_add(1);
        return Err(DiskFailed);
    }
    Ok(())
}

/// Notes how a call of the file went: behind a fault none is made any more.
fn noted(
    answer: Result<(), DiskFailed>,
    is_broken: &mut bool,
    faults: &mut u64,
) -> Result<(), DiskFailed>
    ensures is { result ≡ answer }
    ensures goes { OnOk result (is_broken.new ≡ is_broken.old) }
    ensures broken { OnErr result (is_broken.new ≡ true) }
    ensures count { CountsFaults result faults.old faults.new }
{
    match answer {
        Ok(()) => Ok(()),
        Err(DiskFailed) => {
            *is_broken = true;
            *faults = faults.saturating_add(1);
            Err(DiskFailed)
        }
    }
}

/// Syncs the change that is open, where there is one.
fn close<F: RawFile>(
    file: &mut F,
    bytes: &Vec<u8>,
    change: &mut Option<OpenChange>,
) -> Result<(), DiskFailed>
    requires { IsMirror bytes.now.items (F.has file.old) (F.synced file.old) change.old }
    ensures has { F.has file.new ≡ bytes.now.items }
    ensures closed { OnOk result ((change.new ≡ None) × (F.synced file.new ≡ bytes.now.items)) }
    ensures failed { OnErr result ((change.new ≡ change.old) × (F.synced file.new ≡ F.synced file.old)) }
{
    match *change {
        None => Ok(()),
        Some(_) => {
            file.sync(bytes)?;
            *change = None;
            Ok(())
        }
    }
}

/// Writes a piece over the bytes. An `Err` changes nothing.
fn overwrite(bytes: &mut Vec<u8>, at: usize, piece: &[u8]) -> Result<(), Memory>
    requires { at ≤ vec_len bytes.old }
    ensures ok { OnOk result (bytes.new.items ≡ written at piece.now bytes.old.items) }
    ensures err { OnErr result (bytes.new.items ≡ bytes.old.items) }
    ensures full { OnErr result (vec_len bytes.old < at + length piece.now) }
{
    let Some(end) = at.checked_add(piece.len()) else {
        return Err(Memory);
    };
    if end > bytes.len() {
        bytes.resize(end, 0)?;
    }
    bytes[at..end].copy_from_slice(piece);
    Ok(())
}

impl<F: RawFile + Send> Disk for FileDisk<F> {
    ghost use Rattle.std.specs.Prelude.{refl};
    ghost use Rattle.std.proofs.Common.{inl, inr};
    ghost use Rattle.pw_volume.specs.Life.{Untold};
    ghost use Rattle.pw_file_disk.specs.FileDisk.{MayBeLeft};

    ghost bytes = { λ disk. disk.bytes };

    ghost may_leave = { MayBeLeft };

    ghost settled = { λ disk. disk.settled };

    ghost faults = { λ disk. disk.faults };

    ghost life = { λ _. Untold };

    ghost bytes_may_stay = { λ disk. inl refl };

    ghost settled_may_stay = { λ disk. inr (inl refl) };

    fn length(&mut self) -> Result<u64, DiskFailed> {
        admit(self.is_broken, &mut self.faults)?;
        Ok(self.bytes.len() as u64)
    }

    fn read(&mut self, at: u64, into: &mut [u8]) -> Result<(), DiskFailed> {
        admit(self.is_broken, &mut self.faults)?;
        let at = at as usize;
        into.copy_from_slice(&self.bytes[at..at + into.len()]);
        Ok(())
    }

    fn write_at(&mut self, at: u64, piece: &[u8]) -> Result<(), WriteFault> {
        admit(self.is_broken, &mut self.faults)?;
        let closed = close(&mut self.file, &self.bytes, &mut self.change);
        noted(closed, &mut self.is_broken, &mut self.faults)?;
        overwrite(&mut self.bytes, at as usize, piece)?;
        let length = piece.len() as u64;
        self.change = Some(OpenChange::Wrote { at, length });
        let put = self.file.write(at, piece, &self.bytes);
        noted(put, &mut self.is_broken, &mut self.faults)?;
        Ok(())
    }

    fn cut(&mut self, length: u64) -> Result<(), DiskFailed> {
        admit(self.is_broken, &mut self.faults)?;
        let closed = close(&mut self.file, &self.bytes, &mut self.change);
        noted(closed, &mut self.is_broken, &mut self.faults)?;
        self.bytes.truncate(length as usize);
        self.change = Some(OpenChange::Cut { length });
        let cut = self.file.cut(length, &self.bytes);
        noted(cut, &mut self.is_broken, &mut self.faults)
    }

    fn sync(&mut self) -> Result<(), DiskFailed> {
        admit(self.is_broken, &mut self.faults)?;
        let synced = self.file.sync(&self.bytes);
        noted(synced, &mut self.is_broken, &mut self.faults)?;
        self.change = None;
        self.settled = Snapshot::of(&self.bytes);
        Ok(())
    }
}

impl FileDisk<HostFile> {
    /// The first call of the system that failed, if one did, and why.
    pub fn failure(&self) -> Option<FileFailure> {
        self.file.failure()
    }
}
