//! The run of a deck over a store.

ghost use Rattle.std.specs.Prelude.{◌≡◌, [], IfErr, IfOk};
ghost use Rattle.pw_store_runs.specs.Stores.{RefusesStore, StoreRuns, deck_refused, first_refused};

use crate::asked::{FollowedRun, StoreParts};
use crate::ending::{StoreFault, Stored};
use crate::first::first_files;
use crate::system::run_system;
use pw_base::fault::{Fault, Refusal};
use pw_compiled_deck::deck::{Deck, read};
use pw_group_commit::follower::Follower;
use pw_laws::serial::laws::runs_keep_their_promises;
use pw_read_back::failures::failure_laws;
use pw_read_back::laws::runs_are_read_back;
use pw_records::alike::are_alike;
use pw_records::laws::record_laws;
use pw_report::taken::let_go;
use pw_volume::disk::Disk;
use pw_workers::gate::Gate;
use std::alloc::Global;
use std::sync::Wait;
use std::thread::Threads;

/// Runs the deck of these bytes over a store as it is asked (docs/guide/STORE.md): the bytes of the deck with which it began, and
/// the disk with its trail. How the run ended, with its report, and the disk and the follower as it left them. It may wait for a
/// thread.
///
/// The log is a run of the deck, by the trees of its programs, over the records of the store in place of its own, and keeps
/// what is promised of logs (docs/proof/PROMISES.md). The store then has a unit for each that commits in the log, behind those
/// from before, and so has what a crash leaves of it. The follower is told of each unit once it is settled, and by the end of
/// all of them.
pub fn run_stored<D: Disk, F: Follower + Send, G: Gate, R: Threads + Wait + Sync>(
    rt: &R,
    alloc: Global,
    first: &[u8],
    bytes: &[u8],
    disk: D,
    run: FollowedRun<'_, F, G>,
) -> Result<Stored<D, F>, StoreFault<D>>
    requires told { F.was_told run.follower [] }
    ensures runs { IfOk result (StoreRuns D.may_leave D.faults F.was_told first.now (D.bytes disk) (D.faults disk)
        bytes.now run.entry.bounds.events) }
    ensures fault { IfErr result (RefusesStore D.faults first.now (D.bytes disk) (D.faults disk) bytes.now) }
{
    runs_keep_their_promises();
    runs_are_read_back();
    failure_laws();
    record_laws();
    let Deck { system, script, .. } = match read(alloc, bytes) {
        Ok(deck) => deck,
        Err(refusal) => return Err(of_deck(refusal)),
    };
    let files = match first_files(alloc, first) {
        Ok(files) => files,
        Err(refusal) => {
            let_go(system);
            return Err(of_first(refusal));
        }
    };
    if !are_alike(files.as_slice(), system.files.as_slice()) {
        let_go(system);
        return Err(StoreFault::OtherFiles);
    }
    let store = StoreParts { files, disk };
    run_system(rt, alloc, system, script, store, run)
}

/// The fault of a deck that was not read.
fn of_deck<D: Disk>(refusal: Refusal) -> StoreFault<D>
    ensures { result ≡ deck_refused refusal }
{
    match refusal {
        Refusal::At { line, code } => StoreFault::Refused(Fault { line, code }),
        Refusal::Memory => StoreFault::Memory,
    }
}

/// The fault of a store whose first deck was not read.
fn of_first<D: Disk>(refusal: Refusal) -> StoreFault<D>
    ensures { result ≡ first_refused refusal }
{
    match refusal {
        Refusal::At { .. } => StoreFault::NoStore,
        Refusal::Memory => StoreFault::Memory,
    }
}
