//! What is opened of a trail on a disk in memory.

ghost use Rattle.std.specs.Prelude.{◌≡◌, ℕ, Err, None, IfOk};
ghost use Rattle.pw_code.specs.Valid.{IsValid};
ghost use Rattle.pw_deck_runs.specs.recovery.InMemory.{held};
ghost use Rattle.pw_tmf.specs.Tmf.{told_of};
ghost use Rattle.pw_trail.specs.Calls.{DiskHoldsUnits, moment};
ghost use Rattle.pw_trail.specs.Format.{units_in};
ghost use Rattle.pw_trail.specs.Restoring.{IsReadBack};
ghost use Rattle.pw_volume.specs.MemDisk.{MayLeave};

use pw_base::memory::Memory;
use pw_code::system::System;
use pw_trail::fault::OpenFault;
use pw_trail::trail::Trail;
use pw_volume::mem_disk::MemDisk;
use std::alloc::Global;

/// Opens the trail of a system on a disk that has no stop.
pub fn opened(alloc: Global, disk: MemDisk, system: &System) -> Result<Trail<MemDisk>, Memory>
    requires valid { IsValid system.now }
    requires whole { (at : ℕ) → units_in system.now.files disk.bytes ≡ Err at → ⊥ }
    requires lasts { disk.left ≡ None }
    ensures files { IfOk result (λ trail. trail.log.files ≡ system.now.files) }
    ensures read { IfOk result (λ trail.
        IsReadBack system.now (units_in system.now.files disk.bytes) (told_of trail.tmf)) }
    ensures faults { IfOk result (λ trail. trail.faults ≡ 0) }
    ensures stands { IfOk result (λ trail. DiskHoldsUnits held MayLeave
        (moment trail.log.files trail.log.disk trail.log.is_broken)
        (units_in system.now.files disk.bytes)) }
    ensures lasts { IfOk result (λ trail. trail.log.disk.left ≡ None) }
{
    match Trail::open(alloc, disk, system) {
        Ok(trail) => Ok(trail),
        Err((_disk, fault)) => match fault {
            OpenFault::Memory => Err(Memory),
            OpenFault::Failed => unreachable!(),
            OpenFault::Damaged { .. } => unreachable!(),
        },
    }
}
