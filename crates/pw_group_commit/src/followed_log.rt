//! The log of a trail whose settled units are told to a follower.

ghost use Rattle.std.specs.Prelude.{◌≡◌, ◌<◌, ◌≤◌, ◌∷◌, ◌++◌, [], true, false, All, IfOk, IsErrOf, List, Ok, OnErr, OnOk};
ghost use Rattle.pw_group_commit.specs.Followed.{AreLastOf, names_of};
ghost use Rattle.pw_group_commit.specs.Grouped.{IsGroupLog, added_units, group_state, most_in_group, settled_units, waiting_units};
ghost use Rattle.pw_group_commit.specs.declared.follower.UnitName.{UnitName};
ghost use Rattle.pw_trail.specs.Body.{fits};
ghost use Rattle.pw_trail.specs.Calls.{DiskHoldsUnits, moment};

use crate::follower::{Follower, UnitName};
use crate::group_log::{GroupLog, LogNaming};
use pw_base::memory::Memory;
use pw_trail::changes::UnitChanges;
use pw_trail::log::TrailLog;
use pw_trail::synced::Synced;
use pw_volume::fault::WriteFault;
use std::alloc::Global;
use std::marker::Model;

/// The log of a trail to which units are added in groups, with a follower, who is told of each unit once it is settled. Contracts
/// see of it what they see of its log; its type keeps that the follower was told just the units that are settled.
#[derive(Drop)]
pub struct FollowedLog<S: Synced, N: LogNaming, F: Follower> {
    log: GroupLog<S, N>,
    /// The names of the units that wait.
    waiting: Vec<UnitName>,
    follower: F,
}

impl<S: Synced, N: LogNaming, F: Follower> Model for FollowedLog<S, N, F> {
    ghost use Rattle.pw_group_commit.specs.Followed.{IsFollowed};
    ghost use Rattle.pw_group_commit.specs.Grouped.{GroupState};

    ghost Value = { GroupState S };

    ghost view = { λ own. own.log };

    ghost invariant = { λ own. IsFollowed S.settled N.before F.was_told own.log own.waiting.items own.follower };
}

impl<S: Synced, N: LogNaming, F: Follower> FollowedLog<S, N, F> {
    /// The log of a trail to which none was added yet, and a follower who was told of none.
    pub fn new(alloc: Global, log: TrailLog<S>, follower: F) -> Result<FollowedLog<S, N, F>, Memory>
        requires files { log.files ≡ N.files }
        requires stands { DiskHoldsUnits S.held S.images (moment log.files log.disk log.is_broken) (Ok N.before) }
        requires faults { N.least ≤ S.faulted log.disk }
        requires told { F.was_told follower [] }
        ensures is { IfOk result (λ own. own ≡ group_state log.files log.disk log.is_broken (0 ∷ []) 0) }
        ensures none { IfOk result (λ own. added_units S.settled N.before own ≡ []) }
    {
        let log = GroupLog::new(alloc, log)?;
        Ok(FollowedLog {
            log,
            waiting: Vec::new(alloc),
            follower,
        })
    }

    /// Whether the disk has failed.
    pub fn is_broken(&self) -> bool
        ensures { result ≡ self.now.is_broken }
    {
        self.log.is_broken()
    }

    /// Adds the record of a unit. Where the group is full, it is first put behind the trail, and told.
    pub fn add(&mut self, alloc: Global, unit: &UnitChanges) -> Result<(), WriteFault>
        requires { All (λ change. fits self.old.files change ≡ true) unit.now.changes }
        ensures ok { OnOk result (added_units S.settled N.before self.new
            ≡ added_units S.settled N.before self.old ++ unit.now ∷ []) }
        ensures err { OnErr result (added_units S.settled N.before self.new ≡ added_units S.settled N.before self.old) }
        ensures goes { OnOk result ((self.old.is_broken ≡ false) × (self.new.is_broken ≡ false)) }
        ensures memory { IsErrOf result WriteFault.Memory → self.new.is_broken ≡ false }
        ensures failed { IsErrOf result WriteFault.Failed → self.new.is_broken ≡ true }
        ensures broken { self.new.is_broken ≡ false → self.old.is_broken ≡ false }
        ensures files { self.new.files ≡ self.old.files }
    {
        self.make_room()?;
        self.put(alloc, unit)?;
        Ok(())
    }

    /// Puts the group behind the trail where it is full.
    fn make_room(&mut self) -> Result<(), WriteFault>
        ensures room { OnOk result ((self.new.count < most_in_group) × (self.new.is_broken ≡ false)) }
        ensures added { added_units S.settled N.before self.new ≡ added_units S.settled N.before self.old }
        ensures memory { IsErrOf result WriteFault.Memory → self.new.is_broken ≡ false }
        ensures failed { IsErrOf result WriteFault.Failed → self.new.is_broken ≡ true }
        ensures broken { self.new.is_broken ≡ false → self.old.is_broken ≡ false }
        ensures files { self.new.files ≡ self.old.files }
    {
        if self.log.is_broken()
            || self.log.is_full()
            || self.waiting.len() >= self.follower.group_size() as usize
        {
            return self.flush();
        }
        Ok(())
    }

    /// Adds the record of a unit and its name to those that wait.
    fn put(&mut self, alloc: Global, unit: &UnitChanges) -> Result<(), Memory>
        requires goes { self.old.is_broken ≡ false }
        requires room { self.old.count < most_in_group }
        requires fits { All (λ change. fits self.old.files change ≡ true) unit.now.changes }
        ensures ok { OnOk result (added_units S.settled N.before self.new
            ≡ added_units S.settled N.before self.old ++ unit.now ∷ []) }
        ensures err { OnErr result (added_units S.settled N.before self.new ≡ added_units S.settled N.before self.old) }
        ensures broken { self.new.is_broken ≡ self.old.is_broken }
        ensures files { self.new.files ≡ self.old.files }
    {
        let many = self.waiting.len();
        self.waiting.push(UnitName {
            terminal: unit.terminal,
            number: unit.unit,
        })?;
        match self.log.add(alloc, unit) {
            Ok(()) => Ok(()),
            Err(Memory) => {
                self.waiting.truncate(many);
                Err(Memory)
            }
        }
    }

    /// Puts what waits behind the trail, all by two writes and two syncs, and then tells the follower of it: behind an `Ok` none
    /// waits. `Failed` comes only where the disk has failed, in this call or an earlier one; want of memory changes nothing.
    pub fn flush(&mut self) -> Result<(), WriteFault>
        ensures ok { OnOk result ((waiting_units self.new ≡ []) × (self.new.is_broken ≡ false)) }
        ensures none { OnOk result (self.new.count ≡ 0) }
        ensures added { added_units S.settled N.before self.new ≡ added_units S.settled N.before self.old }
        ensures memory { IsErrOf result WriteFault.Memory → self.new.is_broken ≡ false }
        ensures failed { IsErrOf result WriteFault.Failed → self.new.is_broken ≡ true }
        ensures broken { self.new.is_broken ≡ false → self.old.is_broken ≡ false }
        ensures files { self.new.files ≡ self.old.files }
    {
        self.log.flush()?;
        tell_settled(&self.log, &mut self.follower, self.waiting.as_slice());
        self.waiting.clear();
        Ok(())
    }

    /// Gives back the disk and the follower, who was told of the units that are settled.
    pub fn close(self) -> (S, F)
        ensures disk { result.0 ≡ self.disk }
        ensures keeps { IsGroupLog S.held S.images S.settled S.faulted N.files N.before N.least self }
        ensures told { F.was_told result.1 (names_of (settled_units S.settled N.before self)) }
    {
        let FollowedLog { log, follower, .. } = self;
        (log.close(), follower)
    }
}

/// Tells a follower of units. They are the last ones that are settled, and the disk has not failed: so each image that a crash may
/// leave has them, by what the type of the log keeps.
fn tell_settled<S: Synced, N: LogNaming, F: Follower>(
    log: &GroupLog<S, N>,
    follower: &mut F,
    units: &[UnitName],
)
    requires goes { log.now.is_broken ≡ false }
    requires settled { AreLastOf (settled_units S.settled N.before log.now) units.now }
    ensures { (told : List UnitName) → F.was_told follower.old told → F.was_told follower.new (told ++ units.now) }
{
    log.holds();
    follower.tell(units);
}
