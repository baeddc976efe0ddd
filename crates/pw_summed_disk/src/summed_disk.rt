ghost use Rattle.std.specs.Prelude.{◌≡◌, ◌+◌, ◌<◌, ◌≤◌, length, take, drop, true, false, OnErr, OnOk, vec_len, vec_capacity};
ghost use Rattle.pw_base.specs.Outside.{Rose};
ghost use Rattle.pw_volume.specs.Crash.{written, CountsFaults};
ghost use Rattle.pw_summed_disk.specs.Summed.{AreWhole, IsReadImage, KeepsSummed, content};

use crate::plan::{Behind, DiskStanding, plan};
use pw_base::memory::Memory;
use pw_volume::disk::Disk;
use pw_volume::fault::{DiskFailed, WriteFault};

/// A disk over another one, below, whose content it has in memory too. It has a sum of each piece. It makes three changes, one
/// at a time, each synced before the next: a piece with a shut gate behind its content; that the gate before that piece is
/// opened; and a cut behind the shut gate. Each other one is refused, which is a fault.
#[derive(Drop)]
pub struct SummedDisk<P: Disk> {
    pub disk: P,
    /// The content.
    pub bytes: Vec<u8>,
    pub standing: DiskStanding,
    /// Whether the last change below is synced.
    pub is_synced: bool,
    /// The disk below has failed.
    pub is_broken: bool,
    /// How many calls were refused.
    pub refusals: u64,
    ghost whole: { AreWhole (P.may_leave disk) },
    ghost keeps: { is_broken ≡ false
        → KeepsSummed is_synced standing bytes.items (P.bytes disk) (P.may_leave disk) },
}

/// Refuses a call.
fn refused(refusals: &mut u64) -> DiskFailed
    ensures later { refusals.old ≤ refusals.new }
    ensures rose { Rose refusals.old refusals.new }
{
    *refusals = refusals.saturating_add(1);
    DiskFailed
}

/// Refuses a call where the disk below has failed.
fn admit(is_broken: bool, refusals: &mut u64) -> Result<(), DiskFailed>
    ensures goes { OnOk result (is_broken ≡ false) }
    ensures stays { OnOk result (refusals.new ≡ refusals.old) }
    ensures count { CountsFaults result refusals.old refusals.new }
{
    if is_broken {
        return Err(refused(refusals));
    }
    Ok(())
}

/// Refuses a change where the one before it is not synced, too.
fn admit_change(is_broken: bool, is_synced: bool, refusals: &mut u64) -> Result<(), DiskFailed>
    ensures goes { OnOk result (is_broken ≡ false) }
    ensures synced { OnOk result (is_synced ≡ true) }
    ensures stays { OnOk result (refusals.new ≡ refusals.old) }
    ensures count { CountsFaults result refusals.old refusals.new }
{
    admit(is_broken, refusals)?;
    if !is_synced {
        return Err(refused(refusals));
    }
    Ok(())
}

/// Fills a slice with the content from a place on.
fn read_at(bytes: &Vec<u8>, at: usize, into: &mut [u8])
    requires { at + length into.old ≤ vec_len bytes.now }
    ensures { into.new ≡ take (length into.old) (drop at bytes.now.items) }
{
    into.copy_from_slice(&bytes[at..at + into.len()]);
}

/// Makes room for a piece at a place of the content.
fn make_room(bytes: &mut Vec<u8>, at: usize, length: usize) -> Result<(), Memory>
    requires { at ≤ vec_len bytes.old }
    ensures same { bytes.new.items ≡ bytes.old.items }
    ensures room { OnOk result (at + length ≤ vec_capacity bytes.new) }
    ensures past { OnErr result (vec_len bytes.old < at + length) }
{
    let Some(end) = at.checked_add(length) else {
        return Err(Memory);
    };
    if end > bytes.len() {
        bytes.reserve(end - bytes.len())?;
    }
    Ok(())
}

/// Writes a piece over the content, which has room for it.
fn overwrite(bytes: &mut Vec<u8>, at: usize, piece: &[u8])
    requires at { at ≤ vec_len bytes.old }
    requires room { at + length piece.now ≤ vec_capacity bytes.old }
    ensures { bytes.new.items ≡ written at piece.now bytes.old.items }
{
    let end = at + piece.len();
    if end > bytes.len() {
        let Ok(()) = bytes.resize(end, 0) else {
            unreachable!()
        };
    }
    bytes[at..end].copy_from_slice(piece);
}

impl<P: Disk> Disk for SummedDisk<P> {
    ghost use Rattle.std.specs.Prelude.{refl};
    ghost use Rattle.pw_volume.specs.Life.{Untold};

    ghost bytes = { λ disk. content (P.bytes disk.disk) };

    ghost may_leave = { λ disk. IsReadImage (P.may_leave disk.disk) };

    ghost settled = { λ disk. content (P.settled disk.disk) };

    ghost faults = { λ disk. P.faults disk.disk + disk.refusals };

    ghost life = { λ _. Untold };

    ghost bytes_may_stay = { λ disk. record { below = P.bytes disk.disk; may = P.bytes_may_stay disk.disk; is = refl } };

    ghost settled_may_stay = { λ disk. record { below = P.settled disk.disk; may = P.settled_may_stay disk.disk; is = refl } };

    fn length(&mut self) -> Result<u64, DiskFailed> {
        admit(self.is_broken, &mut self.refusals)?;
        Ok(self.bytes.len() as u64)
    }

    fn read(&mut self, at: u64, into: &mut [u8]) -> Result<(), DiskFailed> {
        admit(self.is_broken, &mut self.refusals)?;
        read_at(&self.bytes, at as usize, into);
        Ok(())
    }

    fn write_at(&mut self, at: u64, piece: &[u8]) -> Result<(), WriteFault> {
        admit_change(self.is_broken, self.is_synced, &mut self.refusals)?;
        let alloc = *self.bytes.allocator();
        let Some(own) = plan(alloc, self.standing, self.bytes.len(), at, piece)? else {
            return Err(WriteFault::from(refused(&mut self.refusals)));
        };
        make_room(&mut self.bytes, at as usize, piece.len())?;
        match self.disk.write_at(own.place, own.below.bytes()) {
            Ok(()) => {
                overwrite(&mut self.bytes, at as usize, piece);
                self.standing = own.next;
                self.is_synced = false;
                Ok(())
            }
            Err(WriteFault::Memory) => Err(WriteFault::Memory),
            Err(WriteFault::Failed) => {
                self.is_broken = true;
                Err(WriteFault::Failed)
            }
        }
    }

    fn cut(&mut self, length: u64) -> Result<(), DiskFailed> {
        admit_change(self.is_broken, self.is_synced, &mut self.refusals)?;
        if length != self.standing.end as u64 + 1 {
            return Err(refused(&mut self.refusals));
        }
        match self.disk.cut(self.standing.gate + 4) {
            Ok(()) => {
                self.bytes.truncate(length as usize);
                self.standing.known = Behind::Nothing;
                self.is_synced = false;
                Ok(())
            }
            Err(failed) => {
                self.is_broken = true;
                Err(failed)
            }
        }
    }

    fn sync(&mut self) -> Result<(), DiskFailed> {
        admit(self.is_broken, &mut self.refusals)?;
        match self.disk.sync() {
            Ok(()) => {
                self.is_synced = true;
                Ok(())
            }
            Err(failed) => {
                self.is_broken = true;
                Err(failed)
            }
        }
    }
}

impl<P: Disk> SummedDisk<P> {
    /// Shows that no image of what is below is damaged. It does nothing.
    pub fn know_whole(&self)
        ensures { AreWhole (P.may_leave self.now.disk) }
    {}
}
