ghost use Rattle.std.specs.Prelude.{◌≡◌, ℕ, ◌+◌, ◌<◌, ◌≤◌, List, [], ◌∷◌, ◌++◌, true, length, All, Ok, IfOk, OnErr, OnOk, IsErrOf};
ghost use Rattle.pw_base.specs.Outside.{Rose};
ghost use Rattle.pw_code.specs.declared.file.FileInfo.{FileInfo};
ghost use Rattle.pw_volume.specs.Crash.{NoMore, Only};
ghost use Rattle.pw_volume.specs.Life.{Endless, OneCallFails, Passes};
ghost use Rattle.pw_trail.specs.Body.{fits};
ghost use Rattle.pw_trail.specs.Format.{units_in};
ghost use Rattle.pw_trail.specs.Stored.{IsBeforeOrAfter, IsSynced};
ghost use Rattle.pw_trail.specs.declared.changes.UnitChanges.{UnitChanges};

use crate::changes::UnitChanges;
use crate::store::store;
use crate::synced::Synced;
use crate::write::stage;
use pw_volume::disk::Disk;
use pw_volume::fault::WriteFault;
use std::alloc::Global;

/// Makes an empty trail of what is on a disk: one zero byte, synced. Crashes inside are not covered.
pub fn format<D: Disk>(disk: &mut D) -> Result<(), WriteFault>
    ensures made { OnOk result (D.bytes disk.new ≡ 0 ∷ []) }
    ensures durable { OnOk result (Only (D.bytes disk.new) (D.may_leave disk.new)) }
    ensures count { D.faults disk.old ≤ D.faults disk.new }
    ensures cause { IsErrOf result WriteFault.Failed → Rose (D.faults disk.old) (D.faults disk.new) }
    ensures endless { D.life disk.old ≡ Endless → D.life disk.new ≡ Endless }
    ensures never { D.life disk.old ≡ Endless → IsErrOf result WriteFault.Failed → ⊥ }
{
    disk.cut(0)?;
    disk.write_at(0, &[0])?;
    disk.sync()?;
    Ok(())
}

/// Puts the record of a unit behind the others of a trail, whose zero gate is at `end`: the place of the new zero gate.
/// It writes what stands behind the gate, syncs, opens the gate, and syncs.
pub fn append<S: Synced>(
    alloc: Global,
    disk: &mut S,
    end: u64,
    unit: &UnitChanges,
) -> Result<u64, WriteFault>
    requires size { length (S.held disk.old) ≡ end + 1 }
    requires durable { Only (S.held disk.old) (S.images disk.old) }

    // Every crash leaves the units from before the call, or these with the new one.
    ensures images { (files : List FileInfo) (units : List UnitChanges)
        → IsSynced files (S.held disk.old) (S.images disk.old) end units
        → All (λ change. fits files change ≡ true) unit.now.changes
        → (image : List ℕ) → S.images disk.new image → IsBeforeOrAfter files units unit.now image }

    // After an `Ok` it leaves the latter alone.
    ensures stored { IfOk result (λ next. (files : List FileInfo) (units : List UnitChanges)
        → IsSynced files (S.held disk.old) (S.images disk.old) end units
        → All (λ change. fits files change ≡ true) unit.now.changes
        → IsSynced files (S.held disk.new) (S.images disk.new) next (units ++ unit.now ∷ [])) }

    // Behind an `Err` the last sync left the units from before the call.
    ensures unsettled { OnErr result ((files : List FileInfo) (units : List UnitChanges)
        → IsSynced files (S.held disk.old) (S.images disk.old) end units
        → units_in files (S.settled disk.new) ≡ Ok units) }
    ensures count { S.faulted disk.old ≤ S.faulted disk.new }
    ensures cause { IsErrOf result WriteFault.Failed → Rose (S.faulted disk.old) (S.faulted disk.new) }

    // Want of memory changes nothing.
    ensures memory { IsErrOf result WriteFault.Memory → (S.held disk.new ≡ S.held disk.old)
        × NoMore (S.images disk.old) (S.images disk.new) }

    // Four calls of the disk.
    ensures passes { OnOk result (Passes 4 (S.lasts disk.old) (S.lasts disk.new)) }
    ensures fails { IsErrOf result WriteFault.Failed → OneCallFails 4 (S.lasts disk.old) (S.lasts disk.new) }
    ensures uncounted { IsErrOf result WriteFault.Memory → S.lasts disk.new ≡ S.lasts disk.old }
{
    let staged = stage(alloc, unit)?;
    let Some(next) = end.checked_add(staged.len() as u64) else {
        return Err(WriteFault::Memory);
    };
    store(disk, end, &staged)?;
    Ok(next)
}
