ghost use Rattle.std.specs.Prelude.{◌≡◌, IfOk, Option};
ghost use Rattle.std.specs.Option.{option_copied};
ghost use Rattle.pw_tmf.specs.Placed.{is_image_at};

use pw_base::bytes::Bytes;
use pw_base::memory::Memory;
use std::alloc::Global;
use std::marker::Model;

/// A before-image: what was committed at a key of a file, if anything, before the open unit of a terminal changed it.
#[derive(Debug, Drop)]
pub struct Image {
    terminal: u32,
    /// The number of the file, and the key.
    place: (u32, Bytes),
    content: Option<Bytes>,
}

impl Model for Image {
    ghost use Rattle.pw_paired.specs.State.{BeforeImage};

    ghost Value = { BeforeImage };

    ghost view = { λ image. record {
      terminal = image.terminal;
      file = image.place.0;
      key = image.place.1;
      content = image.content;
    } };
}

impl Image {
    /// What was at this place, a file and a key, before the open unit of a terminal changed it.
    pub fn new(terminal: u32, place: (u32, Bytes), content: Option<Bytes>) -> Image
        ensures { result ≡ record { terminal = terminal; file = place.0; key = place.1; content = content } }
    {
        Image {
            terminal,
            place,
            content,
        }
    }

    /// The number of the file.
    pub fn file(&self) -> u32
        ensures { result ≡ self.now.file }
    {
        self.place.0
    }

    /// The key.
    pub fn key(&self) -> &[u8]
        ensures { result.now ≡ self.now.key }
    {
        self.place.1.as_slice()
    }

    /// The number of the file, and the key.
    pub fn place(&self) -> &(u32, Bytes)
        ensures { result.now ≡ (self.now.file, self.now.key) }
    {
        &self.place
    }

    /// A copy of the number of the file and of the key.
    pub fn copy_place(&self, alloc: Global) -> Result<(u32, Bytes), Memory>
        ensures { IfOk result (λ place. place ≡ (self.now.file, self.now.key)) }
    {
        Ok((self.place.0, self.place.1.copy(alloc)?))
    }

    /// What was there, None exactly where nothing was.
    pub fn content(&self) -> Option<&Bytes>
        ensures { option_copied result ≡ self.now.content }
    {
        self.content.as_ref()
    }

    /// Whether it is the one of this terminal's unit at a key of a file.
    pub fn is_at(&self, terminal: u32, place: &(u32, Bytes)) -> bool
        ensures { result ≡ is_image_at terminal place.now.0 place.now.1 self.now }
    {
        self.terminal == terminal
            && (self.place.0 == place.0 && self.place.1.as_slice() == place.1.as_slice())
    }

    /// An equal value.
    pub fn copy(&self, alloc: Global) -> Result<Image, Memory>
        ensures { IfOk result (λ image. image ≡ self.now) }
    {
        Ok(Image {
            terminal: self.terminal,
            place: self.copy_place(alloc)?,
            content: copy_if_any(alloc, &self.content)?,
        })
    }
}

/// An equal value.
pub fn copy_if_any(alloc: Global, content: &Option<Bytes>) -> Result<Option<Bytes>, Memory>
    ensures { IfOk result (λ copy. copy ≡ content.now) }
{
    match content {
        Some(content) => Ok(Some(content.copy(alloc)?)),
        None => Ok(None),
    }
}
