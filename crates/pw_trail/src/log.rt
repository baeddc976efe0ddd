ghost use Rattle.std.specs.Prelude.{◌≡◌, ◌⊎◌, ◌↔◌, ℕ, ◌≤◌, List, [], true, false, All, Ok, Err, IfOk, IfErr, OnErr, OnOk, IsErrOf, IsTrue};
ghost use Rattle.pw_base.specs.Outside.{Rose};
ghost use Rattle.pw_volume.specs.Crash.{NoMore};
ghost use Rattle.pw_volume.specs.Life.{Endless, OneCallFails, Passes};
ghost use Rattle.pw_trail.specs.Body.{fits};
ghost use Rattle.pw_trail.specs.Format.{units_in, with_last};
ghost use Rattle.pw_trail.specs.Stored.{HasUnits, Keeps};

use crate::append::append;
use crate::changes::UnitChanges;
use crate::fault::OpenFault;
use crate::read::fit;
use crate::recover::{Recovery, recover};
use crate::synced::Synced;
use pw_base::list::List;
use pw_code::file::FileInfo;
use pw_volume::disk::Disk;
use pw_volume::fault::WriteFault;
use std::alloc::Global;

/// The units of a trail on a disk. Until a fault of the disk, what a read gives is a trail, and a crash leaves no other
/// bytes. After one it answers `Failed`, and does not touch the disk, until it is opened again.
#[derive(Drop)]
pub struct TrailLog<S: Synced> {
    pub disk: S,
    /// The files whose changes it keeps.
    pub files: List<FileInfo>,
    /// The place of the zero gate.
    pub end: u64,
    pub is_broken: bool,
    ghost sound: { is_broken ≡ false → Keeps files (S.held disk) (S.images disk) end },
}

impl<D: Disk> TrailLog<D> {
    /// Opens the trail on a disk, and hands its units on. A crash inside leaves the same units.
    pub fn open<R: Recovery>(
        alloc: Global,
        mut disk: D,
        files: List<FileInfo>,
        into: &mut R,
    ) -> Result<TrailLog<D>, (D, OpenFault)>
        requires files { (R.system into.old).files ≡ files }
        requires none { R.taken into.old [] }
        ensures opened { IfOk result (λ log. (log.is_broken ≡ false) × (log.files ≡ files)
            × HasUnits (R.taken into.new) (units_in files (D.bytes disk))
            × (units_in files (D.bytes log.disk) ≡ units_in files (D.bytes disk))) }
        ensures system { R.system into.new ≡ R.system into.old }
        ensures images { IfOk result (λ log. (image : List ℕ) → D.may_leave log.disk image
            → D.may_leave disk image ⊎ (units_in files image ≡ units_in files (D.bytes disk))) }
        ensures images_err { IfErr result (λ error. (image : List ℕ) → D.may_leave error.0 image
            → D.may_leave disk image ⊎ (units_in files image ≡ units_in files (D.bytes disk))) }
        ensures damaged { IfErr result (λ error. (at : ℕ) → error.1 ≡ OpenFault.Damaged at
            → units_in files (D.bytes disk) ≡ Err at) }
        ensures count { IfOk result (λ log. D.faults disk ≤ D.faults log.disk) }
        ensures count_err { IfErr result (λ error. D.faults disk ≤ D.faults error.0) }
        ensures failed { IfErr result (λ error. error.1 ≡ OpenFault.Failed
            → Rose (D.faults disk) (D.faults error.0)) }
        ensures endless { IfOk result (λ log. D.life disk ≡ Endless → D.life log.disk ≡ Endless) }
        ensures never { IfErr result (λ error. D.life disk ≡ Endless → error.1 ≡ OpenFault.Failed → ⊥) }
    {
        match recover(alloc, &mut disk, files.as_slice(), into) {
            Ok(end) => Ok(TrailLog {
                disk,
                files,
                end,
                is_broken: false,
            }),
            Err(fault) => Err((disk, fault)),
        }
    }
}

impl<S: Synced> TrailLog<S> {
    /// Puts the record of a unit behind the others, by two writes and two syncs (docs/design/STORAGE.md). Its
    /// changes are of the log's files (`fits`). `Failed` comes only where the disk's count of faults rose
    /// in this call or an earlier one, and from then on always; want of memory changes nothing.
    pub fn append(&mut self, alloc: Global, unit: &UnitChanges) -> Result<(), WriteFault>
        requires { All (λ change. fits self.old.files change ≡ true) unit.now.changes }

        // Every crash leaves the units from before the call, or these with the new one.
        ensures images { self.old.is_broken ≡ false → (image : List ℕ) → S.images self.new.disk image
            → (units_in self.old.files image ≡ units_in self.old.files (S.held self.old.disk))
            ⊎ (units_in self.old.files image ≡ with_last (units_in self.old.files (S.held self.old.disk)) unit.now) }

        // After an `Ok` it leaves the latter alone.
        ensures stored { OnOk result ((image : List ℕ) → S.images self.new.disk image
            → units_in self.old.files image ≡ with_last (units_in self.old.files (S.held self.old.disk)) unit.now) }
        ensures held { OnOk result (units_in self.old.files (S.held self.new.disk)
            ≡ with_last (units_in self.old.files (S.held self.old.disk)) unit.now) }
        ensures goes_on { OnOk result ((self.old.is_broken ≡ false) × (self.new.is_broken ≡ false)) }

        // Behind an `Err` the last sync left the units from before the call.
        ensures unsettled { self.old.is_broken ≡ false → OnErr result
            (units_in self.old.files (S.settled self.new.disk) ≡ units_in self.old.files (S.held self.old.disk)) }

        // Want of memory changes nothing.
        ensures memory { IsErrOf result WriteFault.Memory → (self.old.is_broken ≡ false) × (self.new.is_broken ≡ false)
            × (S.held self.new.disk ≡ S.held self.old.disk)
            × NoMore (S.images self.old.disk) (S.images self.new.disk) }
        ensures cause { IsErrOf result WriteFault.Failed → (self.new.is_broken ≡ true)
            × ((self.old.is_broken ≡ true) ⊎ Rose (S.faulted self.old.disk) (S.faulted self.new.disk)) }
        ensures untouched { self.old.is_broken ≡ true
            → (self.new.disk ≡ self.old.disk) × IsErrOf result WriteFault.Failed }
        ensures files { self.new.files ≡ self.old.files }

        // Four calls of the disk.
        ensures passes { OnOk result (Passes 4 (S.lasts self.old.disk) (S.lasts self.new.disk)) }
        ensures fails { self.old.is_broken ≡ false → IsErrOf result WriteFault.Failed
            → OneCallFails 4 (S.lasts self.old.disk) (S.lasts self.new.disk) }
        ensures uncounted { IsErrOf result WriteFault.Memory → S.lasts self.new.disk ≡ S.lasts self.old.disk }
    {
        if self.is_broken {
            return Err(WriteFault::Failed);
        }
        match append(alloc, &mut self.disk, self.end, unit) {
            Ok(end) => {
                self.end = end;
                Ok(())
            }
            Err(WriteFault::Memory) => Err(WriteFault::Memory),
            Err(WriteFault::Failed) => {
                self.is_broken = true;
                Err(WriteFault::Failed)
            }
        }
    }

    /// Shows that the last sync left what a read gives, where the disk has not failed. It does nothing.
    pub fn know_settled(&self)
        ensures { self.now.is_broken ≡ false → S.settled self.now.disk ≡ S.held self.now.disk }
    {}

    /// Whether each change of a unit is of one of the files.
    pub fn fits(&self, unit: &UnitChanges) -> bool
        ensures { IsTrue result ↔ All (λ change. fits self.now.files change ≡ true) unit.now.changes }
    {
        fit(self.files.as_slice(), unit.changes.as_slice())
    }

    /// Gives the disk back.
    pub fn close(self) -> S
        ensures { result ≡ self.disk }
    {
        let TrailLog { disk, .. } = self;
        disk
    }
}
