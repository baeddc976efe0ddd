ghost use Rattle.std.specs.Prelude.{◌≡◌, ◌<◌, ◌^◌, ◌++◌, [], length, replicate, slice_get, Option, None, Some, IfOk, IfSome, IsSome, is_some, IsTrue, OnOk, OnErr};
ghost use Rattle.std.specs.List.{list_any};
ghost use Rattle.std.specs.Option.{option_copied};

use crate::request::{Request, RequestPlace, Taken};
use crate::twin::Twin;
use crate::work::{any_for, end_all_for, free_place, place_for, put_at, take_at};
use pw_base::memory::Memory;
use std::alloc::Global;
use std::collections::VecDeque;
use std::marker::Model;

/// The requests that wait for a class, and what its processes work on.
#[derive(Debug, Drop)]
pub struct Queue {
    waiting: VecDeque<Twin>,
    busy: Vec<Option<Request>>,
}

impl Model for Queue {
    ghost use Rattle.std.specs.Prelude.{◌<◌, ◌^◌, length};
    ghost use Rattle.pw_class.specs.Queue.{Queue as SeenQueue};

    ghost Value = { SeenQueue };

    ghost view = { λ queue. record { waiting = queue.waiting.items; busy = queue.busy.items } };

    ghost invariant = { λ queue. length queue.busy.items < 2 ^ 32 };
}

impl Queue {
    ghost use Rattle.pw_class.specs.Queue.{is_of, works_for, at_process, with_request, taken, after_take, with_free, without, has_request, IsIn};

    /// A class of so many processes, all free, for which no request waits.
    pub fn new(alloc: Global, processes: u32) -> Result<Queue, Memory>
        ensures { IfOk result (λ queue. queue ≡ record { waiting = []; busy = replicate processes None }) }
    {
        let mut busy = Vec::new(alloc);
        for _ in 0..processes {
            busy.push(None)?;
        }
        Ok(Queue {
            waiting: VecDeque::new(alloc),
            busy,
        })
    }

    /// How many requests wait.
    pub fn waiting(&self) -> usize
        ensures { result ≡ length self.now.waiting }
    {
        self.waiting.len()
    }

    /// The first waiting request, None exactly where none waits.
    pub fn first(&self) -> Option<&Request>
        ensures { option_copied result ≡ slice_get self.now.waiting 0 }
    {
        let twin = self.waiting.front()?;
        Some(twin.request())
    }

    /// What a process works on, None exactly where it is free or there is no such process.
    pub fn at_process(&self, process: u32) -> Option<&Request>
        ensures { option_copied result ≡ at_process self.now process }
    {
        if process == 0 {
            return None;
        }
        let work = self.busy.get(process as usize - 1)?;
        work.as_ref()
    }

    /// Whether a request of the terminal waits.
    fn waits(&self, terminal: u32) -> bool
        ensures { result ≡ list_any (is_of terminal) self.now.waiting }
    {
        self.waiting
            .iter()
            .any(|twin| twin.request().terminal == terminal)
    }

    /// Whether a request of the terminal waits, or a process works on it.
    pub fn has_request(&self, terminal: u32) -> bool
        ensures { result ≡ has_request terminal self.now }
    {
        self.waits(terminal) || any_for(self.busy.as_slice(), terminal)
    }

    /// Where in this class the request of the terminal is.
    pub fn place_of(&self, class: u32, terminal: u32) -> Option<RequestPlace>
        ensures found { is_some result ≡ has_request terminal self.now }
        ensures place { IfSome result (IsIn self.now class terminal) }
    {
        if self.waits(terminal) {
            return Some(RequestPlace::Waiting { class });
        }
        match place_for(self.busy.as_slice(), terminal) {
            Some(place) => Some(RequestPlace::Busy {
                class,
                process: place as u32 + 1,
            }),
            None => None,
        }
    }

    /// Puts a request behind those that wait. An `Err` leaves the class as it was.
    pub fn put(&mut self, request: Request) -> Result<(), Memory>
        ensures ok { OnOk result (self.new ≡ with_request self.old request) }
        ensures err { OnErr result (self.new ≡ self.old) }
    {
        self.waiting.push_back(Twin::new(request)?)?;
        Ok(())
    }

    /// Gives the first waiting request to the free process of smallest number. It takes no memory.
    pub fn take(&mut self) -> Taken
        ensures answer { result ≡ taken self.old }
        ensures after { self.new ≡ after_take self.old }
    {
        if self.waiting.is_empty() {
            return Taken::Empty;
        }
        let Some(place) = free_place(self.busy.as_slice()) else {
            return Taken::NoneFree;
        };
        let (kept, request) = self.waiting.pop_front().unwrap().into_parts();
        put_at(&mut self.busy, place, kept);
        Taken::Got {
            process: place as u32 + 1,
            request,
        }
    }

    /// Takes the request from a busy process, which is then free. It takes no memory.
    pub fn reply(&mut self, process: u32) -> Request
        requires { IsSome (at_process self.old process) }
        ensures answer { Some result ≡ at_process self.old process }
        ensures after { self.new ≡ with_free self.old process }
    {
        take_at(&mut self.busy, process as usize - 1).unwrap()
    }

    /// Takes away the requests of a terminal. It takes no memory.
    pub fn cancel(&mut self, terminal: u32)
        ensures { self.new ≡ without terminal self.old }
    {
        self.waiting
            .retain(|twin| twin.request().terminal != terminal);
        end_all_for(&mut self.busy, terminal);
    }
}
