ghost use Rattle.std.specs.Prelude.{◌≡◌, ◌<◌, ◌==◌, [], All, IfErr, IfOk, IfSome, Ok, OnErr, OnOk, count_by, length};
ghost use Rattle.pw_code.specs.Valid.{IsValid};
ghost use Rattle.pw_tmf.specs.Answers.{Leaves, Operates};
ghost use Rattle.pw_files.specs.Records.{IsContent};
ghost use Rattle.pw_tmf.specs.Operation.{IsCall};
ghost use Rattle.pw_tmf.specs.Restored.{changes_of, restored};
ghost use Rattle.pw_tmf.specs.Starting.{told_at_start};
ghost use Rattle.pw_tmf.specs.Tmf.{IsImage, told_of};
ghost use Rattle.pw_tmf.specs.Units.{HaveDistinctTerminals, CanBackOut, IsRunning, after_commit, all_backed_out};

use crate::answer::{ChangedKey, DiscFault, Ended, FileAnswer, Foreseen};
use crate::committed::put_all_back;
use crate::copies::{copy_files, copy_lists, copy_slots};
use crate::disc::Disc;
use crate::image::Image;
use crate::images::Images;
use crate::operation::{perform, span_of, status_of};
use crate::settle::{is_settled, settle};
use crate::slot::Slot;
use crate::start::{files_of, slots_of};
use crate::stop::stop;
use crate::store::put_back_in;
use pw_base::bytes::Bytes;
use pw_base::memory::Memory;
use pw_blocks::block_file::BlockFile;
use pw_code::file::FileCall;
use pw_code::lock::{LockRule, mode_of};
use pw_code::system::System;
use pw_code::unit::Unit;
use pw_locks::book::LockBook;
use std::alloc::Global;
use std::marker::Model;

/// The records of a system's files in blocks, with the units that change them and their locks.
///
/// What units that were backed out have changed is put back at once where there is memory for it, and else before
/// anything else is done.
#[derive(Debug, Drop)]
pub struct Tmf {
    rule: LockRule,
    files: Vec<BlockFile>,
    /// What is still to be put back, the last list first.
    pending: Vec<Images>,
    book: LockBook,
    slots: Vec<Slot>,
    /// How many units have committed. The count stands still at `u64::MAX`.
    commits: u64,
}

impl Model for Tmf {
    ghost use Rattle.std.specs.Prelude.{reverse};
    ghost use Rattle.pw_tmf.specs.Tmf.{IsTmf, TmfState};

    ghost Value = { TmfState };

    ghost view = { λ tmf. record {
      rule = tmf.rule;
      files = tmf.files.items;
      pending = reverse tmf.pending.items;
      locks = tmf.book;
      slots = tmf.slots.items;
      commits = tmf.commits;
    } };

    ghost invariant = { λ tmf. IsTmf (record {
      rule = tmf.rule;
      files = tmf.files.items;
      pending = reverse tmf.pending.items;
      locks = tmf.book;
      slots = tmf.slots.items;
      commits = tmf.commits;
    }) };
}

impl Tmf {
    /// The records of a valid system's files, where no unit has begun.
    pub fn new(alloc: Global, system: &System) -> Result<Tmf, Memory>
        requires { IsValid system.now }
        ensures { IfOk result (λ tmf. told_of tmf ≡ told_at_start system.now) }
    {
        Ok(Tmf {
            rule: system.rule,
            files: files_of(alloc, system.files.as_slice())?,
            pending: Vec::new(alloc),
            book: LockBook::new(alloc)?,
            slots: slots_of(alloc, system.terminals.len())?,
            commits: 0,
        })
    }

    /// Changes a record for good, as a recovery does: at a key of a file there is this content from now on, or nothing.
    /// An `Err` leaves all that is told.
    pub fn restore(&mut self, file: u32, key: Bytes, content: Option<Bytes>) -> Result<(), Memory>
        requires file { file < (told_of self.old).file_count }
        requires content { IfSome content (IsContent ((told_of self.old).key_length file)) }
        ensures ok { OnOk result (told_of self.new ≡ restored (told_of self.old) file key content) }
        ensures err { OnErr result (told_of self.new ≡ told_of self.old) }
    {
        self.settle()?;
        self.restore_settled(&Image::new(0, (file, key), content))
    }

    /// Puts back what an image has, where nothing else is to be put back. An `Err` leaves all that is told.
    fn restore_settled(&mut self, image: &Image) -> Result<(), Memory>
        requires settled { self.old.pending ≡ [] }
        requires image { IsImage (told_of self.old).key_length (told_of self.old).file_count image.now }
        ensures ok { OnOk result (told_of self.new
            ≡ restored (told_of self.old) image.now.file image.now.key image.now.content) }
        ensures err { OnErr result (told_of self.new ≡ told_of self.old) }
    {
        put_back_in(&mut self.files, image)
    }

    /// What is now at each key that the open unit of a terminal has changed, if there is one, the first change first. It
    /// changes nothing that is told.
    pub fn changes(&mut self, terminal: u32) -> Result<Vec<ChangedKey>, Memory>
        requires { terminal < (told_of self.old).terminals }
        ensures told { told_of self.new ≡ told_of self.old }
        ensures changes { IfOk result (λ changes. changes.items ≡ changes_of (told_of self.old) terminal) }
    {
        self.settle()?;
        self.changes_settled(terminal)
    }

    /// What is now at each key that the open unit of a terminal has changed, where nothing is to be put back.
    fn changes_settled(&self, terminal: u32) -> Result<Vec<ChangedKey>, Memory>
        requires settled { self.now.pending ≡ [] }
        requires terminal { terminal < (told_of self.now).terminals }
        ensures { IfOk result (λ changes. changes.items ≡ changes_of (told_of self.now) terminal) }
    {
        let alloc = *self.files.allocator();
        self.slots[terminal as usize].changes_in(alloc, &self.files)
    }

    /// Puts back what is still to be put back. It changes nothing that is told.
    fn settle(&mut self) -> Result<(), Memory>
        ensures told { told_of self.new ≡ told_of self.old }
        ensures ok { OnOk result (self.new.pending ≡ []) }
    {
        settle(&mut self.files, &mut self.pending)
    }

    /// Does an operation where nothing is to be put back. An `Err` leaves all that is told.
    fn operate_settled(&mut self, unit: &Unit, call: &FileCall) -> Result<FileAnswer, Memory>
        requires settled { self.old.pending ≡ [] }
        requires unit { IsRunning (told_of self.old) unit.now }
        requires call { IsCall (told_of self.old) call.now }
        ensures ok { IfOk result (λ answer. Operates answer (told_of self.old) unit.now call.now (told_of self.new)) }
        ensures err { OnErr result (told_of self.new ≡ told_of self.old) }
    {
        let alloc = *self.files.allocator();
        let span = span_of(alloc, &self.files[call.file as usize], call)?;
        let mode = mode_of(self.rule, &call.op);
        if let Some(holder) = self.book.conflict(unit, call.file, &span, mode) {
            return Ok(FileAnswer::Conflict(holder));
        }
        self.book.add(unit, call.file, span, mode)?;
        let slot = &mut self.slots[unit.terminal as usize];
        match perform(alloc, &mut self.files, slot, unit.terminal, call) {
            Ok((status, content)) => Ok(FileAnswer::Done { status, content }),
            Err(memory) => {
                self.book.take_back();
                Err(memory)
            }
        }
    }

    /// Backs out units where nothing is to be put back, and leaves their changes to be put back. An `Err` leaves all that
    /// is told.
    fn back_out_settled(&mut self, units: &[Unit], ends: bool) -> Result<(), Memory>
        requires settled { self.old.pending ≡ [] }
        requires apart { HaveDistinctTerminals units.now }
        requires units { All (CanBackOut ends (told_of self.old)) units.now }
        ensures ok { OnOk result (told_of self.new ≡ all_backed_out ends (told_of self.old) units.now) }
        ensures err { OnErr result (told_of self.new ≡ told_of self.old) }
    {
        let mut lists = Vec::with_capacity(*self.files.allocator(), units.len())?;
        let mut left = units;
        while let Some((unit, others)) = left.split_first() {
            stop(&mut self.book, &mut self.slots, &mut lists, unit, ends);
            left = others;
        }
        lists.reverse();
        self.pending = lists;
        Ok(())
    }

    /// How many records a file has, with what open units have changed. It makes a copy of the file's records.
    pub fn record_count(&self, alloc: Global, file: u32) -> Result<usize, Memory>
        requires { file < (told_of self.now).file_count }
        ensures { IfOk result (λ count. count ≡ length ((told_of self.now).files file)) }
    {
        if !is_settled(&self.pending) {
            return Err(Memory);
        }
        Ok(self.files[file as usize].records(alloc)?.len())
    }

    /// How many locks units hold on a file.
    pub fn lock_count(&self, file: u32) -> usize
        ensures { result ≡ count_by (λ held. held.file == file) (told_of self.now).locks }
    {
        self.book.count_on(file)
    }

    /// An equal value.
    pub fn copy(&self, alloc: Global) -> Result<Tmf, Memory>
        ensures { IfOk result (λ tmf. tmf ≡ self.now) }
    {
        Ok(Tmf {
            rule: self.rule,
            files: copy_files(alloc, &self.files)?,
            pending: copy_lists(alloc, &self.pending)?,
            book: self.book.copy(alloc)?,
            slots: copy_slots(alloc, &self.slots)?,
            commits: self.commits,
        })
    }

    /// Does an operation. An `Err` leaves all that is told.
    fn try_operate(&mut self, unit: &Unit, call: &FileCall) -> Result<FileAnswer, Memory>
        requires unit { IsRunning (told_of self.old) unit.now }
        requires call { IsCall (told_of self.old) call.now }
        ensures ok { IfOk result (λ answer. Operates answer (told_of self.old) unit.now call.now (told_of self.new)) }
        ensures err { OnErr result (told_of self.new ≡ told_of self.old) }
    {
        self.settle()?;
        self.operate_settled(unit, call)
    }
}

impl Disc for Tmf {
    ghost told = { told_of };

    fn begin(&mut self, unit: &Unit) -> Result<(), DiscFault> {
        let alloc = *self.files.allocator();
        self.slots[unit.terminal as usize].begin(alloc, unit);
        Ok(())
    }

    fn operate(&mut self, unit: &Unit, call: &FileCall) -> FileAnswer {
        match self.try_operate(unit, call) {
            Ok(answer) => answer,
            Err(Memory) => FileAnswer::Memory,
        }
    }

    /// Takes no memory, and answers Ok.
    fn commit(&mut self, unit: &Unit, reply: Option<Bytes>) -> Result<(), DiscFault>
        requires { IsRunning (told_of self.old) unit.now }
        ensures answer { result ≡ Ok tt }
        ensures ok { OnOk result (told_of self.new ≡ after_commit (told_of self.old) unit.now reply) }
        ensures err { IfErr result (λ fault. Leaves fault (told_of self.old) (told_of self.new)) }
    {
        self.book.release(unit);
        self.slots[unit.terminal as usize].end(reply);
        self.commits = self.commits.saturating_add(1);
        Ok(())
    }

    fn back_out(&mut self, units: &[Unit], ends: bool) -> Result<(), DiscFault> {
        self.settle()?;
        self.back_out_settled(units, ends)?;
        let _ = self.settle();
        Ok(())
    }

    fn ended(&self, terminal: u32) -> Option<&Ended> {
        self.slots[terminal as usize].ended()
    }

    fn committed(&self, alloc: Global, file: u32) -> Result<Vec<Bytes>, Memory> {
        if !is_settled(&self.pending) {
            return Err(Memory);
        }
        let mut copy = self.files[file as usize].copy(alloc)?;
        put_all_back(&mut copy, file, &self.slots)?;
        Ok(copy.records(alloc)?.into_vec())
    }

    fn awaits(&self, unit: &Unit, call: &FileCall, holder: &Unit) -> Result<bool, Memory> {
        if !is_settled(&self.pending) {
            return Err(Memory);
        }
        let alloc = *self.files.allocator();
        let span = span_of(alloc, &self.files[call.file as usize], call)?;
        let mode = mode_of(self.rule, &call.op);
        Ok(self.book.blocks(holder, call.file, &span, mode))
    }

    fn foresee(&self, unit: &Unit, call: &FileCall) -> Result<Foreseen, Memory> {
        if !is_settled(&self.pending) {
            return Err(Memory);
        }
        let alloc = *self.files.allocator();
        let file = &self.files[call.file as usize];
        let span = span_of(alloc, file, call)?;
        let mode = mode_of(self.rule, &call.op);
        match self.book.conflict(unit, call.file, &span, mode) {
            Some(holder) => Ok(Foreseen::Conflict(holder)),
            None => Ok(Foreseen::Done(status_of(file, call))),
        }
    }
}
