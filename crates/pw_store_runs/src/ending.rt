//! How the run of a deck over a store ends.

use pw_base::bytes::Bytes;
use pw_base::fault::Fault;
use pw_group_commit::follower::Follower;
use pw_trail::synced::Synced;
use pw_volume::disk::Disk;
use pw_workers::ending::LogEnding;

/// What a run over a store comes to, with the disk and the follower as it left them (docs/guide/STORE.md).
#[derive(Drop)]
pub enum Stored<S: Synced, F: Follower> {
    /// It has ended so, and this is the report of its log. Each unit that has committed is on the disk, and was told.
    Ended(LogEnding, Bytes, S, F),
    /// The disk has failed.
    Failed(S, F),
}

/// Why a deck was not run over a store (docs/guide/STORE.md).
#[derive(Drop)]
pub enum StoreFault<D: Disk> {
    /// The deck has this first fault.
    Refused(Fault),
    /// The deck with which the store began has a fault, so it is none that a store begins with.
    NoStore,
    /// The files of the deck have other names or keys than the store's.
    OtherFiles,
    /// The disk, which is left so, failed as the trail was opened.
    Failed(D),
    /// The trail is outside its format from this place on.
    Damaged { at: u64 },
    /// Memory ran out.
    Memory,
}
