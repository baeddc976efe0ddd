//! The disc over such a log.

ghost use Rattle.std.specs.Prelude.{◌≡◌, ◌≤◌, [], false, true, IfOk, IsErrOf, Ok, OnOk};
ghost use Rattle.pw_group_commit.specs.Discs.{IsGroupDisc, told_in};
ghost use Rattle.pw_group_commit.specs.Followed.{names_of};
ghost use Rattle.pw_group_commit.specs.Grouped.{IsGroupLog, settled_units, waiting_units};
ghost use Rattle.pw_tmf.specs.Faulty.{with_faults};
ghost use Rattle.pw_tmf.specs.Tmf.{told_of};
ghost use Rattle.pw_trail.specs.Calls.{DiskHoldsUnits, moment};

use crate::followed_log::FollowedLog;
use crate::follower::Follower;
use crate::group_log::LogNaming;
use pw_base::bytes::Bytes;
use pw_base::memory::Memory;
use pw_code::file::FileCall;
use pw_code::unit::Unit;
use pw_tmf::answer::{DiscFault, Ended, FileAnswer, Foreseen};
use pw_tmf::disc::Disc;
use pw_tmf::tmf::Tmf;
use pw_trail::synced::Synced;
use pw_trail::trail::{Trail, count_failure, record_of};
use pw_volume::fault::WriteFault;
use std::alloc::Global;
use std::marker::Model;

/// A disc over the log of a trail to which the units that commit are added in groups. All that have committed lead to the
/// committed records. After a fault of the disk `begin`, `operate`, `commit` and `back_out` answer `Failed`. Contracts see
/// what `DiscState` has.
#[derive(Drop)]
pub struct GroupTrail<S: Synced, N: LogNaming, F: Follower> {
    alloc: Global,
    log: FollowedLog<S, N, F>,
    tmf: Tmf,
    /// How often a call has answered `Failed`.
    faults: u64,
}

impl<S: Synced, N: LogNaming, F: Follower> Model for GroupTrail<S, N, F> {
    ghost use Rattle.pw_group_commit.specs.Discs.{DiscState, IsGroupDisc, disc_state as state};

    ghost Value = { DiscState S };

    ghost view = { λ trail. state trail.log trail.faults trail.tmf };

    ghost invariant = { λ trail. IsGroupDisc S.settled N.before (state trail.log trail.faults trail.tmf) };
}

impl<S: Synced, N: LogNaming, F: Follower> GroupTrail<S, N, F> {
    /// The disc over a trail that was opened.
    pub fn new(trail: Trail<S>, follower: F) -> Result<GroupTrail<S, N, F>, Memory>
        requires files { trail.log.files ≡ N.files }
        requires stands { DiskHoldsUnits S.held S.images (moment trail.log.files trail.log.disk trail.log.is_broken)
            (Ok N.before) }
        requires count { N.least ≤ S.faulted trail.log.disk }
        requires faults { trail.faults ≡ 0 }
        requires commits { (told_of trail.tmf).commits ≡ 0 }
        requires told { F.was_told follower [] }
        ensures { IfOk result (λ made. told_in made ≡ with_faults trail.faults (told_of trail.tmf)) }
    {
        let Trail {
            alloc,
            log,
            tmf,
            faults,
            ..
        } = trail;
        let log = FollowedLog::new(alloc, log, follower)?;
        Ok(GroupTrail {
            alloc,
            log,
            tmf,
            faults,
        })
    }

    /// Puts what waits behind the trail and tells the follower of it: behind an `Ok` each unit that has committed is on the disk.
    pub fn flush(&mut self) -> Result<(), WriteFault>
        ensures ok { OnOk result ((waiting_units self.new.log ≡ []) × (self.new.log.is_broken ≡ false)) }
        ensures told { told_in self.new ≡ told_in self.old }
        ensures failed { IsErrOf result WriteFault.Failed → self.new.log.is_broken ≡ true }
    {
        self.log.flush()
    }

    /// Gives back the disk and the follower, who was told of the units that are settled, and shows what the type keeps.
    pub fn close(self) -> (S, F)
        ensures disk { result.0 ≡ self.log.disk }
        ensures log { IsGroupLog S.held S.images S.settled S.faulted N.files N.before N.least self.log }
        ensures keeps { IsGroupDisc S.settled N.before self }
        ensures told { F.was_told result.1 (names_of (settled_units S.settled N.before self.log)) }
    {
        let GroupTrail { log, .. } = self;
        log.close()
    }
}

impl<S: Synced + Send, N: LogNaming + Send + Sync, F: Follower + Send> Disc
    for GroupTrail<S, N, F> {
    ghost use Rattle.pw_group_commit.specs.Discs.{told_in};

    ghost told = { told_in };

    fn begin(&mut self, unit: &Unit) -> Result<(), DiscFault> {
        if self.log.is_broken() {
            return Err(count_failure(&mut self.faults));
        }
        self.tmf.begin(unit)
    }

    fn operate(&mut self, unit: &Unit, call: &FileCall) -> FileAnswer {
        if self.log.is_broken() {
            let _ = count_failure(&mut self.faults);
            return FileAnswer::Failed;
        }
        self.tmf.operate(unit, call)
    }

    /// Adds the record of the unit to the log, and then ends it.
    fn commit(&mut self, unit: &Unit, reply: Option<Bytes>) -> Result<(), DiscFault> {
        let changed = self.tmf.changes(unit.terminal)?;
        let made = record_of(self.alloc, unit, changed)?;
        match self.log.add(self.alloc, &made) {
            Ok(()) => self.tmf.commit(unit, reply),
            Err(WriteFault::Memory) => Err(DiscFault::Memory),
            Err(WriteFault::Failed) => Err(count_failure(&mut self.faults)),
        }
    }

    fn back_out(&mut self, units: &[Unit], ends: bool) -> Result<(), DiscFault> {
        if self.log.is_broken() {
            return Err(count_failure(&mut self.faults));
        }
        self.tmf.back_out(units, ends)
    }

    fn ended(&self, terminal: u32) -> Option<&Ended> {
        self.tmf.ended(terminal)
    }

    fn committed(&self, alloc: Global, file: u32) -> Result<Vec<Bytes>, Memory> {
        self.tmf.committed(alloc, file)
    }

    fn awaits(&self, unit: &Unit, call: &FileCall, holder: &Unit) -> Result<bool, Memory> {
        self.tmf.awaits(unit, call, holder)
    }

    fn foresee(&self, unit: &Unit, call: &FileCall) -> Result<Foreseen, Memory> {
        self.tmf.foresee(unit, call)
    }
}
