//! What is asked of a run over a store.

use pw_base::list::List;
use pw_code::file::FileInfo;
use pw_group_commit::follower::Follower;
use pw_volume::disk::Disk;
use pw_workers::bounds::RunBounds;
use pw_workers::gate::Gate;

/// How a run goes that is followed.
#[derive(Drop)]
pub struct FollowedRun<'a, F: Follower, G: Gate> {
    pub bounds: RunBounds,
    /// What each worker passes before it applies what came of its task.
    pub gate: &'a G,
    /// Who is told of the units that are settled.
    pub follower: F,
}

/// What a store has.
#[derive(Drop)]
pub struct StoreParts<D: Disk> {
    /// The files of the deck with which it began.
    pub files: List<FileInfo>,
    /// The disk of its trail.
    pub disk: D,
}
