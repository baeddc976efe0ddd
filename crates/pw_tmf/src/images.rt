ghost use Rattle.std.specs.Prelude.{◌≡◌, [], ◌∷◌, All, drop, length, map, reverse, slice_get, IfOk, OnErr, OnOk};
ghost use Rattle.std.specs.List.{list_any};
ghost use Rattle.std.specs.Option.{option_copied};
ghost use Rattle.pw_blocks.specs.Blocks.{records_of};
ghost use Rattle.pw_paired.specs.Units.{has_image};
ghost use Rattle.pw_tmf.specs.Committed.{FitsFile, all_put_back};
ghost use Rattle.pw_tmf.specs.Placed.{is_found_at};
ghost use Rattle.pw_tmf.specs.Restored.{changed_in};
ghost use Rattle.pw_tmf.specs.Tmf.{AreImages, key_lengths, stored};

use crate::answer::ChangedKey;
use crate::image::Image;
use crate::store::{changed, put_back_if};
use pw_base::bytes::Bytes;
use pw_base::memory::Memory;
use pw_blocks::block_file::BlockFile;
use pw_locks::index::FiledNumbers;
use std::alloc::Global;
use std::marker::Model;

/// The before-images of a unit. Contracts see them with the last one first, which is the order in which they are put
/// back.
#[derive(Debug, Drop)]
pub struct Images {
    images: Vec<Image>,
    /// The places in that list of those at each key of a file.
    places: FiledNumbers<(u32, Bytes)>,
}

impl Model for Images {
    ghost use Rattle.std.specs.Prelude.{List, reverse};
    ghost use Rattle.pw_paired.specs.State.{BeforeImage};
    ghost use Rattle.pw_tmf.specs.Placed.{AreFiled};

    ghost Value = { List BeforeImage };

    ghost view = { λ images. reverse images.images.items };

    ghost invariant = { λ images. AreFiled images.images.items images.places.numbers };
}

impl Images {
    /// None. It takes no memory.
    pub fn new(alloc: Global) -> Images
        ensures { result ≡ [] }
    {
        Images {
            images: Vec::new(alloc),
            places: FiledNumbers::new(alloc),
        }
    }

    /// The first one that is to be put back, None exactly where there is none.
    pub fn first(&self) -> Option<&Image>
        ensures { option_copied result ≡ slice_get self.now 0 }
    {
        self.images.last()
    }

    /// Puts one before the others. An `Err` leaves them as they were.
    pub fn push(&mut self, image: Image) -> Result<(), Memory>
        ensures ok { OnOk result (self.new ≡ image ∷ self.old) }
        ensures err { OnErr result (self.new ≡ self.old) }
    {
        let alloc = *self.images.allocator();
        let number = self.images.len() as u64;
        self.places.put(alloc, image.copy_place(alloc)?, number)?;
        self.images.push(image)?;
        Ok(())
    }

    /// Lets the first one go, if there is one. It takes no memory.
    pub fn drop_first(&mut self)
        ensures { self.new ≡ drop 1 self.old }
    {
        if let Some(image) = self.images.pop() {
            self.places
                .take_out(image.place(), self.images.len() as u64);
        }
    }

    /// Whether there is one of this terminal's unit at a key of a file.
    pub fn has(&self, terminal: u32, place: &(u32, Bytes)) -> bool
        ensures { result ≡ has_image terminal place.now.0 place.now.1 self.now }
    {
        match self.places.numbers.get(place) {
            Some(numbers) => is_one_at(&self.images, numbers, terminal, place),
            None => false,
        }
    }

    /// Puts back, in a file of this number, what those of that file have.
    pub fn put_back_in(&self, number: u32, file: &mut BlockFile) -> Result<(), Memory>
        requires { All (FitsFile number file.old.key) self.now }
        ensures key { file.new.key ≡ file.old.key }
        ensures ok { OnOk result (records_of file.new.blocks
            ≡ all_put_back file.old.key number self.now (records_of file.old.blocks)) }
    {
        let mut left = self.images.len();
        while left > 0 {
            left -= 1;
            put_back_if(file, number, &self.images[left])?;
        }
        Ok(())
    }

    /// What is at the key of each one in these files now, the first one that was made first.
    pub fn changes_in(&self, alloc: Global, files: &[BlockFile]) -> Result<Vec<ChangedKey>, Memory>
        requires { AreImages (key_lengths files.now) (length files.now) self.now }
        ensures { IfOk result (λ changes. changes.items
            ≡ map (changed_in (key_lengths files.now) (stored files.now)) (reverse self.now)) }
    {
        let mut changes = Vec::new(alloc);
        for image in self.images.iter() {
            changes.push(changed(alloc, files, image)?)?;
        }
        Ok(changes)
    }

    /// An equal value.
    pub fn copy(&self, alloc: Global) -> Result<Images, Memory>
        ensures { IfOk result (λ images. images ≡ self.now) }
    {
        let mut images = Images::new(alloc);
        for image in self.images.iter() {
            images.push(image.copy(alloc)?)?;
        }
        Ok(images)
    }
}

/// Whether the image at a place in the list, if there is one, is of this terminal's unit at a key of a file.
fn is_it_at(images: &[Image], number: u64, terminal: u32, place: &(u32, Bytes)) -> bool
    ensures { result ≡ is_found_at terminal place.now.0 place.now.1 (slice_get images.now number) }
{
    match images.get(number as usize) {
        Some(image) => image.is_at(terminal, place),
        None => false,
    }
}

/// Whether one of the images at these places in the list is of this terminal's unit at a key of a file.
fn is_one_at(images: &[Image], numbers: &[u64], terminal: u32, place: &(u32, Bytes)) -> bool
    ensures { result ≡ list_any
        (λ n. is_found_at terminal place.now.0 place.now.1 (slice_get images.now n)) numbers.now }
{
    numbers
        .iter()
        .any(|number| is_it_at(images, *number, terminal, place))
}
