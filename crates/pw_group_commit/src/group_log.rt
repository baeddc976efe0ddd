//! The log of a trail to which units are added in groups.

ghost use Rattle.std.specs.Prelude.{◌≡◌, ◌<◌, ◌≤◌, ◌∷◌, ◌++◌, [], true, false, All, IfOk, IsErrOf, Ok, OnErr, OnOk};
ghost use Rattle.pw_group_commit.specs.Grouped.{IsGroupLog, added_units, group_state, most_in_group, settled_units, waiting_units};
ghost use Rattle.pw_trail.specs.Body.{fits};
ghost use Rattle.pw_trail.specs.Calls.{DiskHoldsUnits, moment};

use pw_base::memory::Memory;
use pw_trail::changes::UnitChanges;
use pw_trail::group::RecordGroup;
use pw_trail::log::TrailLog;
use pw_trail::synced::Synced;
use pw_volume::fault::WriteFault;
use std::alloc::Global;
use std::marker::{Brand, Model, PhantomData};

/// How many units a group has at most.
const MOST_IN_GROUP: u32 = 32;

/// Which log it is: each run picks it.
pub trait LogNaming {
    ghost use Rattle.std.specs.Prelude.{List, ℕ};
    ghost use Rattle.pw_code.specs.declared.file.FileInfo.{FileInfo};
    ghost use Rattle.pw_trail.specs.declared.changes.UnitChanges.{UnitChanges};

    /// The files whose changes it keeps.
    ghost files: { List FileInfo };

    /// The units that it had at the start.
    ghost before: { List UnitChanges };

    /// How often its disk had failed then.
    ghost least: { ℕ };
}

impl LogNaming for Brand {
    ghost use Rattle.std.specs.Prelude.{[]};

    ghost files = { [] };

    ghost before = { [] };

    ghost least = { 0 };
}

/// The log of a trail to which units are added in groups: those that were added wait in memory until `flush` is called, and are
/// then put behind the trail together. Contracts see what `GroupState` has.
#[derive(Drop)]
pub struct GroupLog<S: Synced, N: LogNaming> {
    log: TrailLog<S>,
    group: RecordGroup,
    /// How many units wait.
    count: u32,
    of: PhantomData<N>,
}

impl<S: Synced, N: LogNaming> Model for GroupLog<S, N> {
    ghost use Rattle.pw_group_commit.specs.Grouped.{GroupState, IsGroupLog as Keeps, group_state as state};

    ghost Value = { GroupState S };

    ghost view = { λ own. state own.log.files own.log.disk own.log.is_broken own.group.bytes.items own.count };

    ghost invariant = { λ own. Keeps S.held S.images S.settled S.faulted N.files N.before N.least
        (state own.log.files own.log.disk own.log.is_broken own.group.bytes.items own.count) };
}

impl<S: Synced, N: LogNaming> GroupLog<S, N> {
    /// The log of a trail to which none was added yet.
    pub fn new(alloc: Global, log: TrailLog<S>) -> Result<GroupLog<S, N>, Memory>
        requires files { log.files ≡ N.files }
        requires stands { DiskHoldsUnits S.held S.images (moment log.files log.disk log.is_broken) (Ok N.before) }
        requires faults { N.least ≤ S.faulted log.disk }
        ensures is { IfOk result (λ own. own ≡ group_state log.files log.disk log.is_broken (0 ∷ []) 0) }
        ensures none { IfOk result (λ own. added_units S.settled N.before own ≡ []) }
    {
        let group = RecordGroup::new(alloc)?;
        Ok(GroupLog {
            log,
            group,
            count: 0,
            of: PhantomData,
        })
    }

    /// Whether the disk has failed.
    pub fn is_broken(&self) -> bool
        ensures { result ≡ self.now.is_broken }
    {
        self.log.is_broken
    }

    /// Shows what the type keeps. It does nothing.
    pub fn holds(&self)
        ensures { IsGroupLog S.held S.images S.settled S.faulted N.files N.before N.least self.now }
    {
        let _count = self.count;
    }

    /// Whether as many units wait as a group has at most.
    pub fn is_full(&self) -> bool
        ensures { result ≡ false → self.now.count < most_in_group }
    {
        self.count >= MOST_IN_GROUP
    }

    /// Adds the record of a unit to those that wait. An `Err` changes nothing.
    pub fn add(&mut self, alloc: Global, unit: &UnitChanges) -> Result<(), Memory>
        requires goes { self.old.is_broken ≡ false }
        requires room { self.old.count < most_in_group }
        requires fits { All (λ change. fits self.old.files change ≡ true) unit.now.changes }
        ensures waits { OnOk result (waiting_units self.new ≡ waiting_units self.old ++ unit.now ∷ []) }
        ensures settled { OnOk result (settled_units S.settled N.before self.new ≡ settled_units S.settled N.before self.old) }
        ensures err { OnErr result (self.new ≡ self.old) }
        ensures broken { self.new.is_broken ≡ self.old.is_broken }
        ensures files { self.new.files ≡ self.old.files }
    {
        self.group.add(alloc, unit)?;
        self.count += 1;
        Ok(())
    }

    /// Puts what waits behind the trail, all by two writes and two syncs: behind an `Ok` none waits, and what did is settled.
    /// `Failed` comes only where the disk has failed, in this call or an earlier one; want of memory changes nothing.
    pub fn flush(&mut self) -> Result<(), WriteFault>
        ensures ok { OnOk result ((waiting_units self.new ≡ []) × (self.new.is_broken ≡ false)) }
        ensures none { OnOk result (self.new.count ≡ 0) }
        ensures settled { OnOk result (settled_units S.settled N.before self.new ≡ added_units S.settled N.before self.old) }
        ensures unsettled { OnErr result (settled_units S.settled N.before self.new ≡ settled_units S.settled N.before self.old) }
        ensures waits { OnErr result (waiting_units self.new ≡ waiting_units self.old) }
        ensures memory { IsErrOf result WriteFault.Memory → self.new.is_broken ≡ false }
        ensures failed { IsErrOf result WriteFault.Failed → self.new.is_broken ≡ true }
        ensures broken { self.new.is_broken ≡ false → self.old.is_broken ≡ false }
        ensures files { self.new.files ≡ self.old.files }
    {
        if self.log.is_broken {
            return Err(WriteFault::Failed);
        }
        if self.count == 0 {
            return Ok(());
        }
        self.log.append_group(&self.group)?;
        self.group.clear();
        self.count = 0;
        Ok(())
    }

    /// Gives the disk back.
    pub fn close(self) -> S
        ensures disk { result ≡ self.disk }
        ensures keeps { IsGroupLog S.held S.images S.settled S.faulted N.files N.before N.least self }
    {
        let GroupLog { log, .. } = self;
        log.close()
    }
}
