ghost use Rattle.std.specs.Prelude.{◌≡◌, ◌≢◌, ◌⊎◌, ◌≤◌, [], drop, length, All, IfErr, IfOk, IsErrOf, MatchBool, OnErr, OnOk, if◌then◌else◌};
ghost use Rattle.pw_code.specs.Valid.{IsValid};
ghost use Rattle.pw_tmf.specs.Answers.{Leaves, Operates};
ghost use Rattle.pw_tmf.specs.Operation.{IsCall};
ghost use Rattle.pw_tmf.specs.Starting.{told_at_start};
ghost use Rattle.pw_tmf.specs.Units.{HaveDistinctTerminals, CanBackOut, CanBegin, IsRunning, after_commit, all_backed_out, begun};
ghost use Rattle.pw_disc.specs.Calls.{CanMake, Makes, is_done};
ghost use Rattle.pw_disc.specs.Lines.{is_held_at_front};
ghost use Rattle.pw_disc.specs.Pair.{AfterCall, AfterOperation, IsLost, RanOutOfMemory, IsUnmade, Lasts, acted, after_lines, after_outcome, finished, lost, prepared, state_of};
ghost use Rattle.pw_disc.specs.declared.standing.DiscPairState.TheVariants.{Two, One, Lost};

use crate::acting::{count_acting, holds, lose_pair};
use crate::backup::DiscBackup;
use crate::both::{Made, make_on_both};
use crate::call::DiscCall;
use crate::copies::copy_file_call;
use crate::members::{fail_member, take_over};
use crate::outcome::DiscOutcome;
use crate::script::{DiscLine, DiscScript};
use crate::standing::DiscPairState;
use crate::units::Units;
use pw_base::bytes::Bytes;
use pw_base::memory::Memory;
use pw_code::file::FileCall;
use pw_code::system::System;
use pw_code::unit::Unit;
use pw_tmf::answer::{DiscFault, Ended, FileAnswer, Foreseen};
use pw_tmf::disc::Disc;
use pw_tmf::tmf::Tmf;
use std::alloc::Global;
use std::marker::Model;

/// A disc that a primary and its backup keep. They fail as a script says. docs/design/STORAGE.md has the steps of a call.
#[derive(Debug, Drop)]
pub struct DiscPair {
    primary: Tmf,
    /// None where there is a single member.
    backup: Option<DiscBackup>,
    is_lost: bool,
    lines: Vec<DiscLine>,
    /// How many of the lines were used.
    used: usize,
    /// How many calls were done. The count stands still at `u64::MAX`.
    done: u64,
    /// How many calls failed. The count stands still at `u64::MAX`.
    faults: u64,
}

impl Model for DiscPair {
    ghost use Rattle.pw_disc.specs.Pair.{IsPair, PairKept, kept_as};

    ghost Value = { PairKept };

    ghost view = { λ pair.
        kept_as pair.is_lost pair.backup pair.primary pair.used pair.lines.items pair.done pair.faults };

    ghost invariant = { λ pair. IsPair pair.primary pair.backup pair.used pair.lines.items };
}

impl DiscPair {
    /// The records of a valid system's files, kept by two members, where no unit has begun.
    pub fn new(alloc: Global, system: &System, script: DiscScript) -> Result<DiscPair, Memory>
        requires { IsValid system.now }
        ensures { IfOk result (λ pair. state_of pair ≡ record {
          standing = Two;
          told = told_at_start system.now;
          lines = script.lines;
          done = 0;
        }) }
    {
        let primary = Tmf::new(alloc, system)?;
        let backup = DiscBackup::raise(alloc, &primary)?;
        Ok(DiscPair {
            primary,
            backup: Some(backup),
            is_lost: false,
            lines: script.lines.into_vec(),
            used: 0,
            done: 0,
            faults: 0,
        })
    }

    /// How many members there are.
    pub fn standing(&self) -> DiscPairState
        ensures { result ≡ self.now.standing }
    {
        match (self.is_lost, &self.backup) {
            (true, _) => DiscPairState::Lost,
            (false, None) => DiscPairState::One,
            (false, Some(_)) => DiscPairState::Two,
        }
    }

    /// Lets go of the pair.
    pub fn let_go(self) {}

    /// Whether no member is there.
    fn is_gone(&self) -> bool
        ensures { MatchBool result (self.now.standing ≡ Lost) (self.now.standing ≢ Lost) }
    {
        self.is_lost
    }

    /// How many calls failed.
    pub fn faults(&self) -> u64
        ensures { result ≡ self.now.faults }
    {
        self.faults
    }

    /// A call fails, as each one does once the pair is lost.
    fn fail(&mut self) -> DiscFault
        requires { self.old.standing ≡ Lost }
        ensures answer { result ≡ DiscFault.Failed }
        ensures pair { state_of self.new ≡ lost (state_of self.old) }
    {
        self.faults = self.faults.saturating_add(1);
        DiscFault::Failed
    }

    /// A single member raises a backup. An `Err` changes nothing.
    fn raise(&mut self) -> Result<(), Memory>
        requires { self.old.standing ≢ Lost }
        ensures ok { OnOk result (state_of self.new ≡ record (state_of self.old) { standing = Two }) }
        ensures single { OnErr result (self.old.standing ≡ One) }
        ensures err { OnErr result (state_of self.new ≡ state_of self.old) }
    {
        if self.backup.is_some() {
            return Ok(());
        }
        let backup = DiscBackup::raise(*self.lines.allocator(), &self.primary)?;
        self.backup = Some(backup);
        Ok(())
    }

    /// So many lines act, of which this is the first, where there are two members: it leaves a single member, and those
    /// behind it may lose the pair.
    fn lose_member(&mut self, first: DiscLine, count: usize, loses: bool)
        requires two { self.old.standing ≡ Two }
        requires count { count ≤ length self.old.lines }
        ensures { state_of self.new ≡ after_lines (if loses then Lost else One)
            (if loses then [] else drop count self.old.lines) (state_of self.old) }
    {
        let backup = self.backup.take();
        fail_member(&mut self.primary, backup, first);
        self.used += count;
        self.is_lost = loses;
    }

    /// The due lines that act at the start of a call act, where there are two members.
    fn act(&mut self)
        requires { self.old.standing ≡ Two }
        ensures { state_of self.new ≡ acted (state_of self.old) }
    {
        let left = &self.lines[self.used..];
        let count = count_acting(self.done, left);
        let (acting, _) = left.split_at(count);
        let loses = lose_pair(acting);
        if let Some(first) = acting.first().copied() {
            self.lose_member(first, count, loses);
        }
    }

    /// What comes before a call: a single member raises a backup, the due lines act, and a member that they left single
    /// raises one.
    fn prepare(&mut self) -> Result<(), DiscFault>
        ensures ok { OnOk result (Lasts (state_of self.old) × (state_of self.new ≡ prepared (state_of self.old))) }
        ensures failed { IsErrOf result DiscFault.Failed → IsLost (state_of self.old) × (state_of self.new ≡ lost (state_of self.old)) }
        ensures memory { IsErrOf result DiscFault.Memory → RanOutOfMemory (state_of self.old) (state_of self.new) }
    {
        if self.is_gone() {
            return Err(self.fail());
        }
        self.raise()?;
        self.act();
        if self.is_gone() {
            return Err(self.fail());
        }
        self.raise()?;
        Ok(())
    }

    /// A call was done, and counts; where a HELD line is due, the primary fails behind it. Tells whether it did.
    fn finish(&mut self) -> bool
        requires { self.old.standing ≡ Two }
        ensures held { result ≡ is_held_at_front self.old.done self.old.lines }
        ensures pair { state_of self.new ≡ finished (state_of self.old) }
    {
        let held = holds(self.done, &self.lines[self.used..]);
        self.done = self.done.saturating_add(1);
        if !held {
            return false;
        }
        self.used += 1;
        let backup = self.backup.take();
        take_over(&mut self.primary, backup);
        true
    }

    /// What comes behind a call that both members made: where it was done, it counts, and a due HELD line acts. It gives
    /// the outcome of the member that answers.
    fn answer(&mut self, of_primary: DiscOutcome, of_backup: DiscOutcome) -> DiscOutcome
        requires { self.old.standing ≡ Two }
        ensures one { (result ≡ of_primary) ⊎ (result ≡ of_backup) }
        ensures pair { state_of self.new ≡ after_outcome (is_done of_primary) (state_of self.old) }
    {
        if !of_primary.is_done() {
            return of_primary;
        }
        if self.finish() { of_backup } else { of_primary }
    }

    /// A call of both members, and what comes behind it.
    fn make(&mut self, call: DiscCall) -> Result<DiscOutcome, Memory>
        requires two { self.old.standing ≡ Two }
        requires can { CanMake (state_of self.old).told call }
        ensures makes { IfOk result (λ outcome. Makes outcome (state_of self.old).told call (state_of self.new).told) }
        ensures pair { IfOk result (λ outcome. state_of self.new
            ≡ after_outcome (is_done outcome) (record (state_of self.old) { told = (state_of self.new).told })) }
        ensures err { OnErr result (IsUnmade (state_of self.old) (state_of self.new)) }
    {
        let alloc = *self.lines.allocator();
        let Some(backup) = self.backup.take() else {
            unreachable!();
        };
        match make_on_both(alloc, &mut self.primary, backup, call) {
            Ok(
                Made {
                    backup,
                    of_backup,
                    of_primary,
                },
            ) => {
                self.backup = Some(backup);
                Ok(self.answer(of_primary, of_backup))
            }
            Err(backup) => {
                self.backup = backup;
                Err(Memory)
            }
        }
    }

    /// An operation, where it does not fail.
    fn try_operate(&mut self, unit: &Unit, call: &FileCall) -> Result<FileAnswer, DiscFault>
        requires unit { IsRunning (state_of self.old).told unit.now }
        requires call { IsCall (state_of self.old).told call.now }
        ensures answer { IfOk result (λ answer. Operates answer (state_of self.old).told unit.now call.now (state_of self.new).told) }
        ensures ok { IfOk result (λ answer. AfterOperation answer (state_of self.old) (state_of self.new)) }
        ensures failed { IsErrOf result DiscFault.Failed → IsLost (state_of self.old) × (state_of self.new ≡ lost (state_of self.old)) }
        ensures memory { IsErrOf result DiscFault.Memory → RanOutOfMemory (state_of self.old) (state_of self.new) }
    {
        self.prepare()?;
        let call = copy_file_call(*self.lines.allocator(), call)?;
        let outcome = self.make(DiscCall::Operate(*unit, call))?;
        Ok(outcome.into_answer())
    }
}

impl Disc for DiscPair {
    ghost told = { λ pair. (state_of pair).told };

    fn begin(&mut self, unit: &Unit) -> Result<(), DiscFault>
        requires { CanBegin (state_of self.old).told unit.now }
        ensures ok { OnOk result ((state_of self.new).told ≡ begun (state_of self.old).told unit.now) }
        ensures err { IfErr result (λ fault. Leaves fault (state_of self.old).told (state_of self.new).told) }
        ensures pair { AfterCall result (state_of self.old) (state_of self.new) }
    {
        self.prepare()?;
        self.make(DiscCall::Begin(*unit))?;
        Ok(())
    }

    fn operate(&mut self, unit: &Unit, call: &FileCall) -> FileAnswer
        requires unit { IsRunning (state_of self.old).told unit.now }
        requires call { IsCall (state_of self.old).told call.now }
        ensures answer { Operates result (state_of self.old).told unit.now call.now (state_of self.new).told }
        ensures pair { AfterOperation result (state_of self.old) (state_of self.new) }
    {
        match self.try_operate(unit, call) {
            Ok(answer) => answer,
            Err(DiscFault::Failed) => FileAnswer::Failed,
            Err(DiscFault::Memory) => FileAnswer::Memory,
        }
    }

    fn commit(&mut self, unit: &Unit, reply: Option<Bytes>) -> Result<(), DiscFault>
        requires { IsRunning (state_of self.old).told unit.now }
        ensures ok { OnOk result ((state_of self.new).told ≡ after_commit (state_of self.old).told unit.now reply) }
        ensures err { IfErr result (λ fault. Leaves fault (state_of self.old).told (state_of self.new).told) }
        ensures pair { AfterCall result (state_of self.old) (state_of self.new) }
    {
        self.prepare()?;
        self.make(DiscCall::Commit(*unit, reply))?;
        Ok(())
    }

    fn back_out(&mut self, units: &[Unit], ends: bool) -> Result<(), DiscFault>
        requires some { units.now ≢ [] }
        requires apart { HaveDistinctTerminals units.now }
        requires units { All (CanBackOut ends (state_of self.old).told) units.now }
        ensures ok { OnOk result ((state_of self.new).told ≡ all_backed_out ends (state_of self.old).told units.now) }
        ensures err { IfErr result (λ fault. Leaves fault (state_of self.old).told (state_of self.new).told) }
        ensures pair { AfterCall result (state_of self.old) (state_of self.new) }
    {
        self.prepare()?;
        let units = Units::from_slice(*self.lines.allocator(), units)?;
        self.make(DiscCall::BackOut(units, ends))?;
        Ok(())
    }

    fn ended(&self, terminal: u32) -> Option<&Ended> {
        self.primary.ended(terminal)
    }

    fn committed(&self, alloc: Global, file: u32) -> Result<Vec<Bytes>, Memory> {
        self.primary.committed(alloc, file)
    }

    fn awaits(&self, unit: &Unit, call: &FileCall, holder: &Unit) -> Result<bool, Memory> {
        self.primary.awaits(unit, call, holder)
    }

    fn foresee(&self, unit: &Unit, call: &FileCall) -> Result<Foreseen, Memory> {
        self.primary.foresee(unit, call)
    }
}
