ghost use Rattle.std.specs.Prelude.{◌≡◌, ◌<◌, ◌^◌, length, map, slice_get, slice_set, Some, IfOk, IfSome, IsSome, false, is_some, OnOk, OnErr};
ghost use Rattle.std.specs.Option.{option_copied};
ghost use Rattle.pw_code.specs.Valid.{IsValid};

use crate::classes::{cancel_all, place_of, take_next};
use crate::places::RequestPlaces;
use crate::queue::Queue;
use crate::request::{Request, RequestPlace, Taken};
use pw_base::memory::Memory;
use pw_code::system::System;
use std::alloc::Global;
use std::marker::Model;

/// The requests of terminals to server classes. Contracts see for each class the waiting requests in order, and for
/// each of its processes the request that it works on, if any. Processes count from 1, and classes from 0.
#[derive(Debug, Drop)]
pub struct ClassBook {
    classes: Vec<Queue>,
    /// Where the request of each terminal is.
    places: RequestPlaces,
}

impl Model for ClassBook {
    ghost use Rattle.std.specs.Prelude.{List, ◌<◌, ◌^◌, length};
    ghost use Rattle.pw_class.specs.Places.{AreNoted};
    ghost use Rattle.pw_class.specs.Queue.{Queue as SeenQueue};

    ghost Value = { List SeenQueue };

    ghost view = { λ book. book.classes.items };

    ghost invariant = { λ book. record {
      few : length book.classes.items < 2 ^ 32;
      noted : AreNoted book.classes.items book.places;
    } };
}

impl ClassBook {
    ghost use Rattle.pw_class.specs.Queue.{with_request, taken, after_take, with_free, without};
    ghost use Rattle.pw_class.specs.Book.{first_queue, queue_at, request_at, is_out, IsAt};

    /// The book of a valid system's classes, with no request.
    pub fn new(alloc: Global, system: &System) -> Result<ClassBook, Memory>
        requires { IsValid system.now }
        ensures { IfOk result (λ book. book ≡ map first_queue system.now.classes) }
    {
        let mut classes = Vec::new(alloc);
        for class in system.classes.as_slice() {
            classes.push(Queue::new(alloc, class.processes)?)?;
        }
        Ok(ClassBook {
            classes,
            places: RequestPlaces::new(alloc),
        })
    }

    /// How many classes there are.
    pub fn class_count(&self) -> usize
        ensures { result ≡ length self.now }
    {
        self.classes.len()
    }

    /// Puts a request behind those that wait for the class. It takes the memory that the request needs until its
    /// reply. An `Err` leaves the book as it was.
    pub fn put(&mut self, class: u32, request: Request) -> Result<(), Memory>
        requires class { class < length self.old }
        requires alone { is_out self.old request.terminal ≡ false }
        ensures ok { OnOk result
            (self.new ≡ slice_set self.old class (with_request (queue_at self.old class) request)) }
        ensures err { OnErr result (self.new ≡ self.old) }
    {
        let terminal = request.terminal;
        self.places.reserve(terminal)?;
        self.classes[class as usize].put(request)?;
        self.places
            .set(terminal, Some(RequestPlace::Waiting { class }));
        Ok(())
    }

    /// How many requests wait for a class.
    pub fn waiting(&self, class: u32) -> usize
        ensures { result ≡ length (queue_at self.now class).waiting }
    {
        match self.classes.get(class as usize) {
            Some(queue) => queue.waiting(),
            None => 0,
        }
    }

    /// The first request that waits for the class, None exactly where none waits.
    pub fn first(&self, class: u32) -> Option<&Request>
        ensures { option_copied result ≡ slice_get (queue_at self.now class).waiting 0 }
    {
        let queue = self.classes.get(class as usize)?;
        queue.first()
    }

    /// What a process of the class works on, None exactly where it is free or there is no such process.
    pub fn request_at(&self, class: u32, process: u32) -> Option<&Request>
        ensures { option_copied result ≡ request_at self.now class process }
    {
        let queue = self.classes.get(class as usize)?;
        queue.at_process(process)
    }

    /// Where a request of the terminal is, None exactly where none waits and none is at a process.
    pub fn request_of(&self, terminal: u32) -> Option<RequestPlace>
        ensures found { is_some result ≡ is_out self.now terminal }
        ensures place { IfSome result (IsAt self.now terminal) }
    {
        self.places.get(terminal)
    }

    /// Gives the first waiting request of the class to the free process of smallest number, which keeps it until its
    /// reply. It takes no memory.
    pub fn take(&mut self, class: u32) -> Taken
        ensures answer { result ≡ taken (queue_at self.old class) }
        ensures after { self.new ≡ slice_set self.old class (after_take (queue_at self.old class)) }
    {
        let taken = take_next(&mut self.classes, class);
        if let Taken::Got { process, request } = &taken {
            let process = *process;
            self.places.set(
                request.terminal,
                Some(RequestPlace::Busy { class, process }),
            );
        }
        taken
    }

    /// Takes the request from a busy process, which is then free. It takes no memory.
    pub fn reply(&mut self, class: u32, process: u32) -> Request
        requires { IsSome (request_at self.old class process) }
        ensures answer { Some result ≡ request_at self.old class process }
        ensures after { self.new ≡ slice_set self.old class (with_free (queue_at self.old class) process) }
    {
        let request = self.classes[class as usize].reply(process);
        let place = place_of(&self.classes, request.terminal);
        self.places.set(request.terminal, place);
        request
    }

    /// Takes the request of a terminal away, whether it waits or is at a process, which is then free. Nothing
    /// happens where there is none. It takes no memory.
    pub fn cancel(&mut self, terminal: u32)
        ensures { self.new ≡ map (without terminal) self.old }
    {
        cancel_all(&mut self.classes, terminal);
        self.places.clear(terminal);
    }
}
