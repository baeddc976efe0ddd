ghost use Rattle.std.specs.Prelude.{◌≡◌, ◌⊎◌, ◌≢◌, ◌∷◌, [], ℕ, ◌≤◌, List, All, Err, IfErr, IfOk, IsErrOf, OnOk, Ok, false, map, true};
ghost use Rattle.pw_base.specs.Outside.{Rose};
ghost use Rattle.pw_code.specs.Valid.{IsValid};
ghost use Rattle.pw_volume.specs.Life.{Endless, OneCallFails, Passes};
ghost use Rattle.pw_tmf.specs.Answers.{Leaves, Operates};
ghost use Rattle.pw_tmf.specs.Committed.{committed};
ghost use Rattle.pw_tmf.specs.Faulty.{with_faults};
ghost use Rattle.pw_tmf.specs.Operation.{IsCall};
ghost use Rattle.pw_tmf.specs.Tmf.{told_of};
ghost use Rattle.pw_tmf.specs.Units.{HaveDistinctTerminals, CanBackOut, CanBegin, IsRunning, after_commit, all_backed_out, begun};
ghost use Rattle.pw_trail.specs.Calls.{Commits, DiskHoldsUnits, moment};
ghost use Rattle.pw_trail.specs.Committing.{LeadsTo, LeadsToEither, change_to, record_of};
ghost use Rattle.pw_trail.specs.Format.{units_in};
ghost use Rattle.pw_trail.specs.Orderly.{IsOrderly};
ghost use Rattle.pw_trail.specs.Restoring.{HasFiles, IsReadBack};

use crate::changes::{Change, ChangeKind, UnitChanges};
use crate::fault::OpenFault;
use crate::log::TrailLog;
use crate::open::open;
use crate::synced::Synced;
use pw_base::bytes::Bytes;
use pw_base::list::List;
use pw_base::memory::Memory;
use pw_code::file::FileCall;
use pw_code::system::System;
use pw_code::unit::Unit;
use pw_tmf::answer::{ChangedKey, DiscFault, Ended, FileAnswer, Foreseen};
use pw_tmf::disc::Disc;
use pw_tmf::tmf::Tmf;
use pw_volume::disk::Disk;
use pw_volume::fault::WriteFault;
use std::alloc::Global;

/// A disc over a trail on a disk. Until a fault of the disk the trail leads to the committed records. After one each of
/// `begin`, `operate`, `commit` and `back_out` answers `Failed` and does not touch the disk, until it is opened again.
#[derive(Drop)]
pub struct Trail<S: Synced> {
    pub alloc: Global,
    pub log: TrailLog<S>,
    pub tmf: Tmf,
    /// How often a call has answered `Failed`.
    pub faults: u64,
    ghost of: { HasFiles log.files (told_of tmf) },
    ghost orderly: { ∥ IsOrderly (told_of tmf) ∥₁ },
    ghost leads: { log.is_broken ≡ false → LeadsTo log.files (told_of tmf) (S.held log.disk) },
    ghost settled: { LeadsTo log.files (told_of tmf) (S.settled log.disk) },
}

/// The change that leads to what is at a key now.
fn change_to(changed: ChangedKey) -> Change
    ensures { result ≡ change_to changed }
{
    let ChangedKey { file, key, content } = changed;
    match content {
        Some(content) => Change {
            file,
            kind: ChangeKind::Put,
            bytes: content,
        },
        None => Change {
            file,
            kind: ChangeKind::Remove,
            bytes: key,
        },
    }
}

/// The record of a unit that has changed this.
pub fn record_of(
    alloc: Global,
    unit: &Unit,
    changed: Vec<ChangedKey>,
) -> Result<UnitChanges, Memory>
    ensures { IfOk result (λ made. made ≡ record {
      terminal = unit.now.terminal;
      unit = unit.now.number;
      changes = map change_to changed.items;
    }) }
{
    let mut changes = List::new(alloc);
    for one in changed {
        changes.push(change_to(one))?;
    }
    Ok(UnitChanges {
        terminal: unit.terminal,
        unit: unit.number,
        changes,
    })
}

/// Counts one fault more, and gives the answer `Failed`.
pub fn count_failure(faults: &mut u64) -> DiscFault
    ensures fault { result ≡ DiscFault.Failed }
    ensures rose { Rose faults.old faults.new }
{
    *faults = faults.saturating_add(1);
    DiscFault::Failed
}

impl<D: Disk> Trail<D> {
    /// Opens the trail on a disk. No unit is open and none has ended, and the committed records are those to which the
    /// trail leads. A crash inside leaves the same units.
    pub fn open(alloc: Global, disk: D, system: &System) -> Result<Trail<D>, (D, OpenFault)>
        requires { IsValid system.now }
        ensures log { IfOk result (λ trail. (trail.log.is_broken ≡ false) × (trail.log.files ≡ system.now.files)
            × (units_in system.now.files (D.bytes trail.log.disk) ≡ units_in system.now.files (D.bytes disk))) }
        ensures told { IfOk result (λ trail.
            IsReadBack system.now (units_in system.now.files (D.bytes disk)) (told_of trail.tmf)) }
        ensures faults { IfOk result (λ trail. trail.faults ≡ 0) }
        ensures stands { IfOk result (λ trail. DiskHoldsUnits D.bytes D.may_leave
            (moment trail.log.files trail.log.disk trail.log.is_broken)
            (units_in system.now.files (D.bytes disk))) }
        ensures images { IfOk result (λ trail. (image : List ℕ) → D.may_leave trail.log.disk image
            → D.may_leave disk image ⊎ (units_in system.now.files image ≡ units_in system.now.files (D.bytes disk))) }
        ensures images_err { IfErr result (λ error. (image : List ℕ) → D.may_leave error.0 image
            → D.may_leave disk image ⊎ (units_in system.now.files image ≡ units_in system.now.files (D.bytes disk))) }
        ensures damaged { IfErr result (λ error. (at : ℕ) → error.1 ≡ OpenFault.Damaged at
            → units_in system.now.files (D.bytes disk) ≡ Err at) }
        ensures count { IfOk result (λ trail. D.faults disk ≤ D.faults trail.log.disk) }
        ensures count_err { IfErr result (λ error. D.faults disk ≤ D.faults error.0) }
        ensures failed { IfErr result (λ error. error.1 ≡ OpenFault.Failed
            → Rose (D.faults disk) (D.faults error.0)) }
        ensures endless { IfOk result (λ trail. D.life disk ≡ Endless → D.life trail.log.disk ≡ Endless) }
        ensures never { IfErr result (λ error. D.life disk ≡ Endless → error.1 ≡ OpenFault.Failed → ⊥) }
    {
        let (log, tmf) = open(alloc, disk, system)?;
        log.know_settled();
        Ok(Trail {
            alloc,
            log,
            tmf,
            faults: 0,
        })
    }
}

impl<S: Synced> Trail<S> {
    /// Gives the disk back. What its last sync left leads to the committed records, also where it has failed.
    pub fn close(self) -> S
        ensures disk { result ≡ self.log.disk }
        ensures settled { LeadsTo self.log.files (told_of self.tmf) (S.settled result) }
    {
        let Trail { log, .. } = self;
        log.close()
    }
}

impl<S: Synced + Send> Disc for Trail<S> {
    ghost told = { λ trail. with_faults trail.faults (told_of trail.tmf) };

    fn begin(&mut self, unit: &Unit) -> Result<(), DiscFault>
        requires { CanBegin (with_faults self.old.faults (told_of self.old.tmf)) unit.now }
        ensures ok { OnOk result (with_faults self.new.faults (told_of self.new.tmf)
            ≡ begun (with_faults self.old.faults (told_of self.old.tmf)) unit.now) }
        ensures err { IfErr result (λ fault. Leaves fault (with_faults self.old.faults (told_of self.old.tmf))
            (with_faults self.new.faults (told_of self.new.tmf))) }
        ensures log { self.new.log ≡ self.old.log }
        ensures broken { self.old.log.is_broken ≡ true → IsErrOf result DiscFault.Failed }
        ensures steady { self.old.log.is_broken ≡ false → self.new.faults ≡ self.old.faults }
    {
        if self.log.is_broken {
            return Err(count_failure(&mut self.faults));
        }
        self.tmf.begin(unit)
    }

    fn operate(&mut self, unit: &Unit, call: &FileCall) -> FileAnswer
        requires unit { IsRunning (with_faults self.old.faults (told_of self.old.tmf)) unit.now }
        requires call { IsCall (with_faults self.old.faults (told_of self.old.tmf)) call.now }
        ensures answer { Operates result (with_faults self.old.faults (told_of self.old.tmf)) unit.now call.now
            (with_faults self.new.faults (told_of self.new.tmf)) }
        ensures log { self.new.log ≡ self.old.log }
        ensures broken { self.old.log.is_broken ≡ true → result ≡ FileAnswer.Failed }
        ensures steady { self.old.log.is_broken ≡ false → self.new.faults ≡ self.old.faults }
    {
        if self.log.is_broken {
            let _ = count_failure(&mut self.faults);
            return FileAnswer::Failed;
        }
        self.tmf.operate(unit, call)
    }

    /// Puts the record of the unit into the trail, and then ends it.
    fn commit(&mut self, unit: &Unit, reply: Option<Bytes>) -> Result<(), DiscFault>
        requires { IsRunning (with_faults self.old.faults (told_of self.old.tmf)) unit.now }
        ensures ok { OnOk result (with_faults self.new.faults (told_of self.new.tmf)
            ≡ after_commit (with_faults self.old.faults (told_of self.old.tmf)) unit.now reply) }
        ensures err { IfErr result (λ fault. Leaves fault (with_faults self.old.faults (told_of self.old.tmf))
            (with_faults self.new.faults (told_of self.new.tmf))) }
        ensures images { self.old.log.is_broken ≡ false → (image : List ℕ) → S.images self.new.log.disk image
            → LeadsToEither self.old.log.files (told_of self.old.tmf) unit.now reply image }
        ensures stored { OnOk result ((image : List ℕ) → S.images self.new.log.disk image
            → LeadsTo self.old.log.files (after_commit (told_of self.old.tmf) unit.now reply) image) }
        ensures commits { Commits S.held S.images
            (moment self.old.log.files self.old.log.disk self.old.log.is_broken)
            (record_of (told_of self.old.tmf) unit.now) result
            (moment self.new.log.files self.new.log.disk self.new.log.is_broken) }
        ensures files { self.new.log.files ≡ self.old.log.files }
        ensures untouched { self.old.log.is_broken ≡ true
            → (self.new.log ≡ self.old.log) × IsErrOf result DiscFault.Failed }
        ensures unsettled { self.old.log.is_broken ≡ false → IsErrOf result DiscFault.Failed
            → (self.new.log.is_broken ≡ true)
            × (units_in self.old.log.files (S.settled self.new.log.disk)
            ≡ units_in self.old.log.files (S.held self.old.log.disk)) }
        ensures passes { OnOk result (Passes 4 (S.lasts self.old.log.disk) (S.lasts self.new.log.disk)) }
        ensures fails { self.old.log.is_broken ≡ false → IsErrOf result DiscFault.Failed
            → OneCallFails 4 (S.lasts self.old.log.disk) (S.lasts self.new.log.disk) }
        ensures uncounted { IsErrOf result DiscFault.Memory
            → S.lasts self.new.log.disk ≡ S.lasts self.old.log.disk }
    {
        if self.log.is_broken {
            return Err(count_failure(&mut self.faults));
        }
        let changed = self.tmf.changes(unit.terminal)?;
        let made = record_of(self.alloc, unit, changed)?;
        match self.log.append(self.alloc, &made) {
            Ok(()) => self.tmf.commit(unit, reply),
            Err(WriteFault::Memory) => Err(DiscFault::Memory),
            Err(WriteFault::Failed) => Err(count_failure(&mut self.faults)),
        }
    }

    fn back_out(&mut self, units: &[Unit], ends: bool) -> Result<(), DiscFault>
        requires some { units.now ≢ [] }
        requires apart { HaveDistinctTerminals units.now }
        requires units { All (CanBackOut ends (with_faults self.old.faults (told_of self.old.tmf))) units.now }
        ensures ok { OnOk result (with_faults self.new.faults (told_of self.new.tmf)
            ≡ all_backed_out ends (with_faults self.old.faults (told_of self.old.tmf)) units.now) }
        ensures err { IfErr result (λ fault. Leaves fault (with_faults self.old.faults (told_of self.old.tmf))
            (with_faults self.new.faults (told_of self.new.tmf))) }
        ensures log { self.new.log ≡ self.old.log }
        ensures broken { self.old.log.is_broken ≡ true → IsErrOf result DiscFault.Failed }
        ensures steady { self.old.log.is_broken ≡ false → self.new.faults ≡ self.old.faults }
    {
        if self.log.is_broken {
            return Err(count_failure(&mut self.faults));
        }
        self.tmf.back_out(units, ends)
    }

    fn ended(&self, terminal: u32) -> Option<&Ended> {
        self.tmf.ended(terminal)
    }

    fn committed(&self, alloc: Global, file: u32) -> Result<Vec<Bytes>, Memory> {
        self.tmf.committed(alloc, file)
    }

    fn awaits(&self, unit: &Unit, call: &FileCall, holder: &Unit) -> Result<bool, Memory> {
        self.tmf.awaits(unit, call, holder)
    }

    fn foresee(&self, unit: &Unit, call: &FileCall) -> Result<Foreseen, Memory> {
        self.tmf.foresee(unit, call)
    }
}
