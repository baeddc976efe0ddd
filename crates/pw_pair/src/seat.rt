ghost use Rattle.std.specs.Prelude.{◌≡◌, ◌↔◌, true, Some, IfOk, IsTrue};
ghost use Rattle.std.specs.Option.{option_copied};
ghost use Rattle.pw_pair.specs.Seats.{applied, built, dropped, flies_whole, holds_end, holds_start, is_built, is_lacking, is_sound, is_waiting, new_seat, stands_for, start_of, with_carried, with_held, with_kind, without_backup, without_flight};
ghost use Rattle.pw_pair.specs.Tasks.{task_of};

use crate::backup::Held;
use crate::link::LinkTask;
use crate::message::{Body, Carried, CheckKind};
use pw_base::bytes::Bytes;
use pw_base::memory::Memory;
use pw_code::copies::Duplicate;
use pw_code::same::Same;
use std::alloc::Global;

/// A message in flight.
#[derive(Debug, Drop)]
pub struct Flight {
    pub message: Carried,
    /// Whether the backup has built the whole image, which the message then carries.
    pub built: bool,
}

/// A terminal's place in its pair.
#[derive(Debug, Drop)]
pub struct BackupSeat {
    pub terminal: u32,
    /// Whether the terminal has ended.
    pub dropped: bool,
    /// What the backup holds of it.
    pub memory: Option<Held>,
    pub flight: Option<Flight>,
}

impl BackupSeat {
    /// The seat of a terminal in a new pair.
    pub fn new(terminal: u32) -> BackupSeat
        ensures { result ≡ new_seat terminal }
    {
        BackupSeat {
            terminal,
            dropped: false,
            memory: None,
            flight: None,
        }
    }

    /// Whether the terminal is live, and the memory lacks it.
    pub fn is_lacking(&self) -> bool
        ensures { result ≡ is_lacking self.now }
    {
        !self.dropped && self.memory.is_none()
    }

    /// Takes the message in flight in.
    pub fn apply(&mut self)
        requires { flies_whole self.old.flight ≡ true }
        ensures { self.new ≡ applied self.old }
    {
        let Some(flight) = self.flight.take() else {
            return;
        };
        let Carried { kind, unit, body } = flight.message;
        match body {
            Body::Whole(image) => self.take_in(kind, unit, image),
            Body::Delta(_) => {}
        }
    }

    /// Takes an image in.
    fn take_in(&mut self, kind: CheckKind, unit: u32, image: Bytes)
        ensures { self.new ≡ record self.old { memory = with_kind kind self.old.terminal unit image self.old.memory } }
    {
        match kind {
            CheckKind::Start | CheckKind::Copy => {
                self.memory = Some(Held {
                    terminal: self.terminal,
                    unit,
                    start: image,
                    end: None,
                });
            }
            CheckKind::End => {
                if let Some(held) = &mut self.memory {
                    held.end = Some(image);
                }
            }
        }
    }

    /// Drops the terminal.
    pub fn drop_terminal(&mut self)
        ensures { self.new ≡ dropped self.old }
    {
        self.dropped = true;
        self.memory = None;
        self.flight = None;
    }

    /// Drops what is in memory and in flight.
    pub fn drop_backup(&mut self)
        ensures { self.new ≡ without_backup self.old }
    {
        self.memory = None;
        self.flight = None;
    }

    /// Drops what is in flight.
    pub fn drop_flight(&mut self)
        ensures { self.new ≡ without_flight self.old }
    {
        self.flight = None;
    }

    /// Puts a message in flight.
    pub fn put_flight(&mut self, message: Carried)
        ensures { self.new ≡ with_carried message self.old }
    {
        self.flight = Some(Flight {
            message,
            built: false,
        });
    }

    /// Puts the whole image into the message in flight.
    pub fn put_image(&mut self, image: Bytes)
        requires { stands_for image self.old }
        ensures { self.new ≡ built self.old }
    {
        if let Some(flight) = &mut self.flight {
            flight.message.body = Body::Whole(image);
            flight.built = true;
        }
    }

    /// Puts what is held of the terminal into its memory.
    pub fn put_held(&mut self, held: Held)
        ensures { self.new ≡ with_held held self.old }
    {
        self.memory = Some(held);
        self.flight = None;
    }

    /// Whether a message is in flight, and it is built.
    pub fn is_built(&self) -> bool
        ensures { result ≡ is_built self.now }
    {
        match &self.flight {
            Some(flight) => flight.built,
            None => false,
        }
    }

    /// Whether a message is in flight, and it is not built.
    pub fn is_waiting(&self) -> bool
        ensures { result ≡ is_waiting self.now }
    {
        match &self.flight {
            Some(flight) => !flight.built,
            None => false,
        }
    }

    /// Whether the memory has this unit and start image.
    pub fn holds_start(&self, unit: u32, image: &[u8]) -> bool
        ensures { result ≡ holds_start unit image.now self.now }
    {
        match &self.memory {
            Some(held) => held.unit == unit && held.start.as_slice() == image,
            None => false,
        }
    }

    /// Whether the memory has this end image.
    pub fn holds_end(&self, image: &[u8]) -> bool
        ensures { result ≡ holds_end image.now self.now }
    {
        match &self.memory {
            Some(held) => match &held.end {
                Some(end) => end.as_slice() == image,
                None => false,
            },
            None => false,
        }
    }

    /// The start image that is held.
    pub fn start(&self) -> Option<&Bytes>
        ensures { option_copied result ≡ start_of self.now.memory }
    {
        let held = self.memory.as_ref()?;
        Some(&held.start)
    }

    /// The task of the message in flight, which is not built.
    pub fn task(&self, alloc: Global) -> Result<LinkTask, Memory>
        requires waiting { is_waiting self.now ≡ true }
        requires sound { is_sound self.now ≡ true }
        ensures { IfOk result (λ task. task_of self.now ≡ Some task) }
    {
        let message = match &self.flight {
            Some(flight) => flight.message.copy(alloc)?,
            None => unreachable!(),
        };
        let held = match self.start() {
            Some(start) => Some(start.copy(alloc)?),
            None => None,
        };
        Ok(LinkTask {
            terminal: self.terminal,
            message,
            held,
        })
    }

    /// Whether a message is in flight that is not built, and this is its task.
    pub fn has_task(&self, task: &LinkTask) -> bool
        ensures { IsTrue result ↔ (task_of self.now ≡ Some task.now) }
    {
        let Some(flight) = &self.flight else {
            return false;
        };
        self.terminal == task.terminal
            && !flight.built
            && flight.message.is_same(&task.message)
            && self.has_start(&task.held)
    }

    /// Whether the start image that is held is this, or neither is there.
    fn has_start(&self, start: &Option<Bytes>) -> bool
        ensures { IsTrue result ↔ (start_of self.now.memory ≡ start.now) }
    {
        match (self.start(), start) {
            (Some(held), Some(start)) => held.is_same(start),
            (None, None) => true,
            _ => false,
        }
    }
}
