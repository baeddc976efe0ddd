ghost use Rattle.std.specs.Prelude.{◌≡◌, ◌∷◌, drop, IfOk, OnErr, OnOk};
ghost use Rattle.pw_tmf.specs.Units.{opened, stopped};

use crate::image::Image;
use crate::images::Images;
use pw_base::memory::Memory;
use pw_code::unit::Unit;
use std::alloc::Global;
use std::marker::Model;

/// The open unit of a terminal.
#[derive(Debug, Drop)]
pub struct TmfUnit {
    number: u32,
    birth: u64,
    running: bool,
    images: Images,
}

impl Model for TmfUnit {
    ghost use Rattle.pw_tmf.specs.Told.{ToldUnit};

    ghost Value = { ToldUnit };

    ghost view = { λ unit. record {
      number = unit.number;
      birth = unit.birth;
      running = unit.running;
      before = unit.images;
    } };
}

impl TmfUnit {
    /// A unit at the beginning of an attempt. It takes no memory.
    pub fn new(alloc: Global, unit: &Unit) -> TmfUnit
        ensures { result ≡ opened unit.now }
    {
        TmfUnit {
            number: unit.number,
            birth: unit.birth,
            running: true,
            images: Images::new(alloc),
        }
    }

    /// The unit's number on its terminal.
    pub fn number(&self) -> u32
        ensures { result ≡ self.now.number }
    {
        self.number
    }

    /// Its before-images.
    pub fn images(&self) -> &Images
        ensures { result.now ≡ self.now.before }
    {
        &self.images
    }

    /// Puts a before-image to the others. An `Err` leaves the unit as it was.
    pub fn note(&mut self, image: Image) -> Result<(), Memory>
        ensures ok { OnOk result (self.new ≡ record self.old { before = image ∷ self.old.before }) }
        ensures err { OnErr result (self.new ≡ self.old) }
    {
        self.images.push(image)
    }

    /// Lets the before-image go that was put there last. It takes no memory.
    pub fn forget(&mut self)
        ensures { self.new ≡ record self.old { before = drop 1 self.old.before } }
    {
        self.images.drop_first();
    }

    /// The unit between two attempts, and its before-images. It takes no memory.
    pub fn stop(self, alloc: Global) -> (TmfUnit, Images)
        ensures unit { result.0 ≡ stopped self }
        ensures images { result.1 ≡ self.before }
    {
        let stopped = TmfUnit {
            number: self.number,
            birth: self.birth,
            running: false,
            images: Images::new(alloc),
        };
        (stopped, self.images)
    }

    /// The before-images.
    pub fn into_images(self) -> Images
        ensures { result ≡ self.before }
    {
        self.images
    }

    /// An equal value.
    pub fn copy(&self, alloc: Global) -> Result<TmfUnit, Memory>
        ensures { IfOk result (λ unit. unit ≡ self.now) }
    {
        Ok(TmfUnit {
            number: self.number,
            birth: self.birth,
            running: self.running,
            images: self.images.copy(alloc)?,
        })
    }
}
