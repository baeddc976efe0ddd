ghost use Rattle.std.specs.Prelude.{◌≡◌, ◌≢◌, ◌⊎◌, ◌+◌, ◌<◌, ◌≤◌, ◌^◌, ℕ, List, [], ◌∷◌, ◌++◌, true, false, drop, length, All, IfOk, OnErr, OnOk, IsErrOf};
ghost use Rattle.pw_base.specs.Outside.{Rose};
ghost use Rattle.pw_code.specs.declared.file.FileInfo.{FileInfo};
ghost use Rattle.pw_volume.specs.Crash.{NoMore};
ghost use Rattle.pw_trail.specs.Body.{fits};
ghost use Rattle.pw_trail.specs.Format.{units_in, with_units};
ghost use Rattle.pw_trail.specs.Groups.{IsGroup, units_of};
ghost use Rattle.pw_trail.specs.declared.changes.UnitChanges.{UnitChanges};

use crate::changes::UnitChanges;
use crate::log::TrailLog;
use crate::store::store;
use crate::synced::Synced;
use crate::write::stage;
use pw_base::memory::Memory;
use pw_volume::fault::WriteFault;
use std::alloc::Global;

/// The records of units that wait to be put behind a trail together: a trail of their own, in memory. Every gate of it is
/// open but the last.
#[derive(Drop)]
pub struct RecordGroup {
    pub bytes: Vec<u8>,
}

impl RecordGroup {
    /// No records.
    pub fn new(alloc: Global) -> Result<RecordGroup, Memory>
        ensures { IfOk result (λ group. group.bytes.items ≡ 0 ∷ []) }
    {
        let bytes = Vec::from_slice(alloc, &[0])?;
        Ok(RecordGroup { bytes })
    }

    /// Puts the record of a unit behind the others. An `Err` leaves them as they were.
    pub fn add(&mut self, alloc: Global, unit: &UnitChanges) -> Result<(), Memory>
        requires { 1 ≤ length self.old.bytes.items }
        ensures ok { OnOk result ((files : List FileInfo) (units : List UnitChanges) → IsGroup files units self.old.bytes.items
            → All (λ change. fits files change ≡ true) unit.now.changes
            → IsGroup files (units ++ unit.now ∷ []) self.new.bytes.items) }
        ensures err { OnErr result (self.new.bytes.items ≡ self.old.bytes.items) }
    {
        let staged = stage(alloc, unit)?;
        let gate = self.bytes.len() - 1;
        self.bytes.extend_from_slice(&staged)?;
        self.bytes[gate] = 1;
        Ok(())
    }

    /// What is written behind the closed gate of a trail: all but the first gate.
    fn staged(&self) -> &[u8]
        requires { 1 ≤ length self.now.bytes.items }
        ensures { result.now ≡ drop 1 self.now.bytes.items }
    {
        &self.bytes[1..]
    }

    /// Lets go of the records. It takes no memory.
    pub fn clear(&mut self)
        requires { 1 ≤ length self.old.bytes.items }
        ensures { self.new.bytes.items ≡ 0 ∷ [] }
    {
        self.bytes.truncate(1);
        self.bytes[0] = 0;
    }
}

impl<S: Synced> TrailLog<S> {
    /// Puts the records of a group behind the others, all by two writes and two syncs, as `append` puts one
    /// (docs/design/STORAGE.md). `Failed` comes only where the disk's count of faults rose in this call or an earlier one, and from
    /// then on always; want of memory changes nothing.
    pub fn append_group(&mut self, group: &RecordGroup) -> Result<(), WriteFault>
        requires group { IsGroup self.old.files (units_of self.old.files group.now.bytes.items) group.now.bytes.items }
        requires some { units_of self.old.files group.now.bytes.items ≢ [] }

        // Every crash leaves the units from before the call, or these with all of the group.
        ensures images { self.old.is_broken ≡ false → (image : List ℕ) → S.images self.new.disk image
            → (units_in self.old.files image ≡ units_in self.old.files (S.held self.old.disk))
            ⊎ (units_in self.old.files image ≡ with_units (units_in self.old.files (S.held self.old.disk))
            (units_of self.old.files group.now.bytes.items)) }

        // After an `Ok` it leaves the latter alone.
        ensures stored { OnOk result ((image : List ℕ) → S.images self.new.disk image
            → units_in self.old.files image ≡ with_units (units_in self.old.files (S.held self.old.disk))
            (units_of self.old.files group.now.bytes.items)) }
        ensures held { OnOk result (units_in self.old.files (S.held self.new.disk)
            ≡ with_units (units_in self.old.files (S.held self.old.disk))
            (units_of self.old.files group.now.bytes.items)) }
        ensures goes_on { OnOk result ((self.old.is_broken ≡ false) × (self.new.is_broken ≡ false)) }

        // Behind an `Err` the last sync left the units from before the call.
        ensures unsettled { self.old.is_broken ≡ false → OnErr result
            (units_in self.old.files (S.settled self.new.disk) ≡ units_in self.old.files (S.held self.old.disk)) }

        // Want of memory changes nothing.
        ensures memory { IsErrOf result WriteFault.Memory → (self.old.is_broken ≡ false) × (self.new.is_broken ≡ false)
            × (S.held self.new.disk ≡ S.held self.old.disk)
            × NoMore (S.images self.old.disk) (S.images self.new.disk) }
        ensures count { S.faulted self.old.disk ≤ S.faulted self.new.disk }
        ensures cause { IsErrOf result WriteFault.Failed → (self.new.is_broken ≡ true)
            × ((self.old.is_broken ≡ true) ⊎ Rose (S.faulted self.old.disk) (S.faulted self.new.disk)) }
        ensures untouched { self.old.is_broken ≡ true
            → (self.new.disk ≡ self.old.disk) × IsErrOf result WriteFault.Failed }
        ensures files { self.new.files ≡ self.old.files }
    {
        if self.is_broken {
            return Err(WriteFault::Failed);
        }
        let staged = group.staged();
        let Some(next) = self.end.checked_add(staged.len() as u64) else {
            return Err(WriteFault::Memory);
        };
        match store(&mut self.disk, self.end, staged) {
            Ok(()) => {
                self.end = next;
                Ok(())
            }
            Err(WriteFault::Memory) => Err(WriteFault::Memory),
            Err(WriteFault::Failed) => {
                self.is_broken = true;
                Err(WriteFault::Failed)
            }
        }
    }
}
