//! The run of a system over a store.

ghost use Rattle.std.specs.Prelude.{◌≡◌, ◌≤◌, [], All, IfErr, IfOk, length};
ghost use Rattle.pw_code.specs.Limits.{most_fail_lines};
ghost use Rattle.pw_code.specs.Valid.{IsDeckFile, IsValid};
ghost use Rattle.pw_code_meaning.specs.OfSystem.{behaviour};
ghost use Rattle.pw_compiled_deck.specs.Named.{IsFailNamed};
ghost use Rattle.pw_onecopy.specs.IsBehaviour.{IsBehaviour};
ghost use Rattle.pw_records.specs.Records.{AreAlike};
ghost use Rattle.pw_deck_runs.specs.recovery.Kept.{trail_state};
ghost use Rattle.pw_store_runs.specs.Refusals.{RefusesTrail};
ghost use Rattle.pw_store_runs.specs.Systems.{BeginsStored, RunsOverTrail};

use crate::asked::{FollowedRun, StoreParts};
use crate::ending::{StoreFault, Stored};
use crate::kept::{know_last, run_kept};
use crate::opened::opened;
use pw_base::memory::Memory;
use pw_code::copies::Duplicate;
use pw_code::system::System;
use pw_deck_runs::setups::setup_of;
use pw_event::script::Script;
use pw_group_commit::follower::Follower;
use pw_records::laws::{found_laws, record_laws};
use pw_records::with_records::{with_files, with_records};
use pw_report::taken::let_go;
use pw_trail::trail::Trail;
use pw_volume::disk::Disk;
use pw_workers::gate::Gate;
use std::alloc::Global;
use std::marker::Brand;
use std::sync::Wait;
use std::thread::Threads;

/// Runs a system over a store as it is asked (docs/guide/STORE.md), whose files have the names and keys of the system's: how the run
/// ended, with its report, and the disk and the follower as it left them. The records that the trail leads to take the place of
/// the system's. It may wait for a thread.
pub fn run_system<D: Disk, F: Follower + Send, G: Gate, R: Threads + Wait + Sync>(
    rt: &R,
    alloc: Global,
    system: System,
    script: Script,
    store: StoreParts<D>,
    run: FollowedRun<'_, F, G>,
) -> Result<Stored<D, F>, StoreFault<D>>
    requires valid { IsValid system }
    requires behaves { IsBehaviour (behaviour script.lines system) }
    requires lines { All (IsFailNamed system) script.lines }
    requires few { length script.lines ≤ most_fail_lines }
    requires alike { AreAlike store.files system.files }
    requires files { All IsDeckFile store.files }
    requires told { F.was_told run.follower [] }
    ensures runs { IfOk result (RunsOverTrail D.may_leave D.faults F.was_told store.files (D.bytes store.disk)
        (D.faults store.disk) script.lines system run.entry.bounds.events) }
    ensures fault { IfErr result (RefusesTrail D.faults (D.faults store.disk) store.files (D.bytes store.disk)) }
{
    record_laws();
    let StoreParts { files, disk } = store;
    let Ok(copy) = system.copy(alloc) else {
        let_go(system);
        return Err(StoreFault::Memory);
    };
    let own = with_files(copy, files);
    let ready = begun(alloc, &system, &own, disk);
    let_go(system);
    let_go(own);
    match ready {
        Ok((now, trail)) => {
            let setup = setup_of(now, script);
            let ran = run_kept::<D, Brand, F, G, R>(rt, alloc, setup, trail, run);
            match ran {
                Ok(stored) => Ok(stored),
                Err(Memory) => Err(StoreFault::Memory),
            }
        }
        Err(fault) => Err(fault),
    }
}

/// The trail of a system on a disk, and another system with the records that it leads to.
fn begun<D: Disk>(
    alloc: Global,
    system: &System,
    own: &System,
    disk: D,
) -> Result<(System, Trail<D>), StoreFault<D>>
    requires valid { IsValid system.now }
    requires own_valid { IsValid own.now }
    requires alike { AreAlike own.now.files system.now.files }
    requires own { own.now ≡ record system.now { files = own.now.files } }
    ensures begins { IfOk result (λ both. BeginsStored D.bytes D.may_leave own.now.files (D.bytes disk) system.now both.0
        (trail_state both.1.log.files both.1.log.disk both.1.log.is_broken both.1.faults both.1.tmf)) }
    ensures stays { IfOk result (λ both. D.may_leave both.1.log.disk (D.settled both.1.log.disk)) }
    ensures count { IfOk result (λ both. D.faults disk ≤ D.faults both.1.log.disk) }
    ensures fault { IfErr result (RefusesTrail D.faults (D.faults disk) own.now.files (D.bytes disk)) }
{
    found_laws();
    let trail = opened(alloc, disk, own)?;
    let Ok(now) = with_records(alloc, system, &trail) else {
        return Err(StoreFault::Memory);
    };
    know_last(&trail);
    Ok((now, trail))
}
