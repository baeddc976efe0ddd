ghost use Rattle.std.specs.Prelude.{◌≡◌, ◌≤◌, None, Some, All, IfOk, OnErr, OnOk, length, map, reverse};
ghost use Rattle.std.specs.Option.{option_copied, option_map};
ghost use Rattle.pw_blocks.specs.Blocks.{records_of};
ghost use Rattle.pw_paired.specs.Units.{has_image};
ghost use Rattle.pw_tmf.specs.Answers.{ended_unit};
ghost use Rattle.pw_tmf.specs.Committed.{FitsFile, all_put_back, images_of};
ghost use Rattle.pw_tmf.specs.Restored.{changed_in};
ghost use Rattle.pw_tmf.specs.Tmf.{AreImages, key_lengths, stored};
ghost use Rattle.pw_tmf.specs.Slots.{backed_out_slot, ended_slot, images_in, with_before, with_unit, without_last};
ghost use Rattle.pw_tmf.specs.Units.{opened};

use crate::answer::{ChangedKey, Ended};
use crate::image::{Image, copy_if_any};
use crate::images::Images;
use crate::open_unit::TmfUnit;
use pw_base::bytes::Bytes;
use pw_base::memory::Memory;
use pw_blocks::block_file::BlockFile;
use pw_code::unit::Unit;
use std::alloc::Global;
use std::marker::Model;

/// The units of a terminal: the open one, if any, and the last ended one. The numbers of units count from 1.
#[derive(Debug, Drop)]
pub struct Slot {
    open_unit: Option<TmfUnit>,
    ended: Option<Ended>,
}

impl Model for Slot {
    ghost use Rattle.pw_tmf.specs.Slots.{NumbersFromOne, SlotState, last_ended};

    ghost Value = { SlotState };

    ghost view = { λ slot. record { open_unit = slot.open_unit; ended = last_ended slot.ended } };

    ghost invariant = { λ slot. NumbersFromOne slot.open_unit slot.ended };
}

impl Slot {
    /// No unit. It takes no memory.
    pub fn new() -> Slot
        ensures { result ≡ record { open_unit = None; ended = record { number = 0; reply = None } } }
    {
        Slot {
            open_unit: None,
            ended: None,
        }
    }

    /// Begins the next attempt of a unit. It takes no memory.
    pub fn begin(&mut self, alloc: Global, unit: &Unit)
        requires { 1 ≤ unit.now.number }
        ensures { self.new ≡ record self.old { open_unit = Some (opened unit.now) } }
    {
        self.open_unit = Some(TmfUnit::new(alloc, unit));
    }

    /// Ends the open unit, if there is one, with its reply. It takes no memory.
    pub fn end(&mut self, reply: Option<Bytes>)
        ensures { self.new ≡ ended_slot reply self.old }
    {
        if let Some(unit) = self.open_unit.take() {
            self.ended = Some(Ended {
                number: unit.number(),
                reply,
            });
        }
    }

    /// Gives the before-images of the open unit, if there is one, which ends or stays open without an attempt. It takes
    /// no memory.
    pub fn back_out(&mut self, alloc: Global, ends: bool) -> Option<Images>
        ensures images { result ≡ option_map images_in self.old.open_unit }
        ensures slot { self.new ≡ backed_out_slot ends self.old }
    {
        let unit = self.open_unit.take()?;
        if ends {
            self.ended = Some(Ended {
                number: unit.number(),
                reply: None,
            });
            return Some(unit.into_images());
        }
        let (stopped, images) = unit.stop(alloc);
        self.open_unit = Some(stopped);
        Some(images)
    }

    /// The last ended unit, None exactly where there is none.
    pub fn ended(&self) -> Option<&Ended>
        ensures { option_copied result ≡ ended_unit self.now.ended }
    {
        self.ended.as_ref()
    }

    /// Whether the open unit has a before-image at a key of a file.
    pub fn has_image(&self, terminal: u32, place: &(u32, Bytes)) -> bool
        ensures { result ≡ has_image terminal place.now.0 place.now.1 (images_of self.now.open_unit) }
    {
        match &self.open_unit {
            Some(unit) => unit.images().has(terminal, place),
            None => false,
        }
    }

    /// Puts a before-image to those of the open unit, if there is one. An `Err` leaves all as it was.
    pub fn note(&mut self, image: Image) -> Result<(), Memory>
        ensures ok { OnOk result (self.new ≡ with_unit (with_before image) self.old) }
        ensures err { OnErr result (self.new ≡ self.old) }
    {
        match &mut self.open_unit {
            Some(unit) => unit.note(image),
            None => Ok(()),
        }
    }

    /// Lets the before-image go that was put there last. It takes no memory.
    pub fn forget(&mut self)
        ensures { self.new ≡ with_unit without_last self.old }
    {
        if let Some(unit) = &mut self.open_unit {
            unit.forget();
        }
    }

    /// Puts back, in a file of this number, what the before-images of that file have.
    pub fn put_back_in(&self, number: u32, file: &mut BlockFile) -> Result<(), Memory>
        requires { All (FitsFile number file.old.key) (images_of self.now.open_unit) }
        ensures key { file.new.key ≡ file.old.key }
        ensures ok { OnOk result (records_of file.new.blocks
            ≡ all_put_back file.old.key number (images_of self.now.open_unit) (records_of file.old.blocks)) }
    {
        match &self.open_unit {
            Some(unit) => unit.images().put_back_in(number, file),
            None => Ok(()),
        }
    }

    /// What is now at each key of these files that the open unit has changed, if there is one, the first change first.
    pub fn changes_in(&self, alloc: Global, files: &[BlockFile]) -> Result<Vec<ChangedKey>, Memory>
        requires { AreImages (key_lengths files.now) (length files.now) (images_of self.now.open_unit) }
        ensures { IfOk result (λ changes. changes.items
            ≡ map (changed_in (key_lengths files.now) (stored files.now)) (reverse (images_of self.now.open_unit))) }
    {
        match &self.open_unit {
            Some(unit) => unit.images().changes_in(alloc, files),
            None => Ok(Vec::new(alloc)),
        }
    }

    /// An equal value.
    pub fn copy(&self, alloc: Global) -> Result<Slot, Memory>
        ensures { IfOk result (λ slot. slot ≡ self.now) }
    {
        Ok(Slot {
            open_unit: copy_unit(alloc, &self.open_unit)?,
            ended: copy_ended(alloc, &self.ended)?,
        })
    }
}

/// An equal value.
fn copy_unit(alloc: Global, unit: &Option<TmfUnit>) -> Result<Option<TmfUnit>, Memory>
    ensures { IfOk result (λ copy. copy ≡ unit.now) }
{
    match unit {
        Some(unit) => Ok(Some(unit.copy(alloc)?)),
        None => Ok(None),
    }
}

/// An equal value.
fn copy_ended(alloc: Global, ended: &Option<Ended>) -> Result<Option<Ended>, Memory>
    ensures { IfOk result (λ copy. copy ≡ ended.now) }
{
    match ended {
        Some(ended) => Ok(Some(Ended {
            number: ended.number,
            reply: copy_if_any(alloc, &ended.reply)?,
        })),
        None => Ok(None),
    }
}
