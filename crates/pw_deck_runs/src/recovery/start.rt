//! The trail with which a run begins.

ghost use Rattle.std.specs.Prelude.{◌≡◌, [], ◌∷◌, None, Some, IfOk};
ghost use Rattle.pw_code.specs.Valid.{IsValid};
ghost use Rattle.pw_deck_runs.specs.recovery.InMemory.{held, lives, synced};
ghost use Rattle.pw_deck_runs.specs.recovery.Kept.{IsKept, life_to, trail_state};
ghost use Rattle.pw_tmf.specs.Faulty.{with_faults};
ghost use Rattle.pw_tmf.specs.Starting.{told_at_start};
ghost use Rattle.pw_tmf.specs.Tmf.{told_of};
ghost use Rattle.pw_volume.specs.MemDisk.{MayLeave, life_by};

use crate::recovery::opened::opened;
use pw_base::memory::Memory;
use pw_code::system::System;
use pw_trail::append::format;
use pw_trail::log::TrailLog;
use pw_trail::trail::Trail;
use pw_volume::fault::WriteFault;
use pw_volume::mem_disk::MemDisk;
use std::alloc::Global;

/// A disk in memory with an empty trail, and without a stop.
fn formatted(alloc: Global) -> Result<MemDisk, Memory>
    ensures bytes { IfOk result (λ disk. disk.bytes ≡ 0 ∷ []) }
    ensures lasts { IfOk result (λ disk. disk.left ≡ None) }
{
    let mut disk = MemDisk::new(alloc)?;
    match format(&mut disk) {
        Ok(()) => Ok(disk),
        Err(fault) => match fault {
            WriteFault::Memory => Err(Memory),
            WriteFault::Failed => unreachable!(),
        },
    }
}

/// The same trail on a disk of which so many more writes, cuts and syncs pass.
fn stopping(trail: Trail<MemDisk>, calls: u64) -> Trail<MemDisk>
    ensures disk { result.log.disk ≡ record trail.log.disk { left = Some calls } }
    ensures files { result.log.files ≡ trail.log.files }
    ensures goes { result.log.is_broken ≡ trail.log.is_broken }
    ensures tmf { result.tmf ≡ trail.tmf }
    ensures faults { result.faults ≡ trail.faults }
{
    let Trail {
        alloc,
        log,
        tmf,
        faults,
    } = trail;
    let TrailLog {
        mut disk,
        files,
        end,
        is_broken,
    } = log;
    disk.stop_after(calls);
    Trail {
        alloc,
        log: TrailLog {
            disk,
            files,
            end,
            is_broken,
        },
        tmf,
        faults,
    }
}

/// An empty trail of a system on a disk in memory, whose write, cut or sync number `at` from here on and
/// each later call fail; no call of it fails where `at` is 0.
pub fn start(alloc: Global, system: &System, at: u32) -> Result<Trail<MemDisk>, Memory>
    requires { IsValid system.now }
    ensures told { IfOk result (λ trail. with_faults trail.faults (told_of trail.tmf) ≡ told_at_start system.now) }
    ensures files { IfOk result (λ trail. trail.log.files ≡ system.now.files) }
    ensures life { IfOk result (λ trail. life_by trail.log.disk.left ≡ life_to at) }
    ensures kept { IfOk result (λ trail. IsKept held MayLeave synced lives trail.log.files [] (lives trail.log.disk)
        (trail_state trail.log.files trail.log.disk trail.log.is_broken trail.faults trail.tmf)) }
{
    let disk = formatted(alloc)?;
    let trail = opened(alloc, disk, system)?;
    if at == 0 {
        return Ok(trail);
    }
    Ok(stopping(trail, u64::from(at - 1)))
}
