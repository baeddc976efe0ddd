//! What is opened of a store.

ghost use Rattle.std.specs.Prelude.{◌≡◌, ◌≤◌, IfErr, IfOk};
ghost use Rattle.pw_code.specs.Valid.{IsValid};
ghost use Rattle.pw_store_runs.specs.Refusals.{RefusesTrail};
ghost use Rattle.pw_tmf.specs.Tmf.{told_of};
ghost use Rattle.pw_trail.specs.Calls.{DiskHoldsUnits, moment};
ghost use Rattle.pw_trail.specs.Format.{units_in};
ghost use Rattle.pw_trail.specs.Restoring.{IsReadBack};

use crate::ending::StoreFault;
use pw_code::system::System;
use pw_trail::fault::OpenFault;
use pw_trail::trail::Trail;
use pw_volume::disk::Disk;
use std::alloc::Global;

/// Opens the trail of a system on a disk, which is handed back where it fails.
pub fn opened<D: Disk>(alloc: Global, disk: D, system: &System) -> Result<Trail<D>, StoreFault<D>>
    requires { IsValid system.now }
    ensures files { IfOk result (λ trail. trail.log.files ≡ system.now.files) }
    ensures read { IfOk result (λ trail.
        IsReadBack system.now (units_in system.now.files (D.bytes disk)) (told_of trail.tmf)) }
    ensures faults { IfOk result (λ trail. trail.faults ≡ 0) }
    ensures stands { IfOk result (λ trail. DiskHoldsUnits D.bytes D.may_leave
        (moment trail.log.files trail.log.disk trail.log.is_broken)
        (units_in system.now.files (D.bytes disk))) }
    ensures count { IfOk result (λ trail. D.faults disk ≤ D.faults trail.log.disk) }
    ensures fault { IfErr result (RefusesTrail D.faults (D.faults disk) system.now.files (D.bytes disk)) }
{
    match Trail::open(alloc, disk, system) {
        Ok(trail) => Ok(trail),
        Err((disk, fault)) => match fault {
            OpenFault::Memory => Err(StoreFault::Memory),
            OpenFault::Failed => Err(StoreFault::Failed(disk)),
            OpenFault::Damaged { at } => Err(StoreFault::Damaged { at }),
        },
    }
}
