ghost use Rattle.std.specs.Prelude.{◌≡◌, ◌<◌, [], IfOk, Some, length, replicate, slice_index_or};
ghost use Rattle.pw_status.specs.Counters.{AreCountersOf, caused, counters_behind, more_at};

use pw_base::memory::Memory;
use pw_event::event::{Cause, Event};
use std::alloc::Global;
use std::marker::Model;

/// What is counted of a log by the words of its entries alone.
#[derive(Debug, Drop)]
pub struct Counters {
    begun: u32,
    older: u32,
    takeover: u32,
    server: u32,
    redo: u32,
    restarts: Vec<u32>,
    taken: Vec<u32>,
}

impl Model for Counters {
    ghost use Rattle.pw_status.specs.Counters.{CountersState};

    ghost Value = { CountersState };

    ghost view = { λ counters. record {
      begun = counters.begun;
      older = counters.older;
      takeover = counters.takeover;
      server = counters.server;
      redo = counters.redo;
      restarts = counters.restarts.items;
      taken = counters.taken.items;
    } };
}

impl Counters {
    /// Before the first entry, for so many terminals and classes.
    pub fn new(alloc: Global, terminals: usize, classes: usize) -> Result<Counters, Memory>
        ensures terminals { IfOk result (λ counters. length counters.restarts ≡ terminals) }
        ensures classes { IfOk result (λ counters. length counters.taken ≡ classes) }
        ensures counts { IfOk result (AreCountersOf []) }
    {
        Ok(Counters {
            begun: 0,
            older: 0,
            takeover: 0,
            server: 0,
            redo: 0,
            restarts: zeros(alloc, terminals)?,
            taken: zeros(alloc, classes)?,
        })
    }

    /// Counts one more entry. It takes no memory.
    pub fn push(&mut self, entry: &Event)
        ensures { self.new ≡ counters_behind entry.now self.old }
    {
        match *entry {
            Event::Begin { .. } => self.begun = self.begun.saturating_add(1),
            Event::Restart {
                terminal,
                cause,
                ..
            } => {
                count_at(&mut self.restarts, terminal);
                self.count_cause(cause);
            }
            Event::Take { class, .. } => count_at(&mut self.taken, class),
            _ => (),
        }
    }

    /// Counts the cause of one more RESTART entry.
    fn count_cause(&mut self, cause: Cause)
        ensures { self.new ≡ caused cause self.old }
    {
        match cause {
            Cause::Older { .. } => self.older = self.older.saturating_add(1),
            Cause::Takeover { .. } => self.takeover = self.takeover.saturating_add(1),
            Cause::Server { .. } => self.server = self.server.saturating_add(1),
            Cause::Redo => self.redo = self.redo.saturating_add(1),
        }
    }

    /// How many BEGIN entries there are.
    pub fn begun(&self) -> u32
        ensures { result ≡ self.now.begun }
    {
        self.begun
    }

    /// How many RESTART entries have the cause OLDER.
    pub fn older(&self) -> u32
        ensures { result ≡ self.now.older }
    {
        self.older
    }

    /// How many RESTART entries have the cause TAKEOVER.
    pub fn takeover(&self) -> u32
        ensures { result ≡ self.now.takeover }
    {
        self.takeover
    }

    /// How many RESTART entries have the cause SERVER.
    pub fn server(&self) -> u32
        ensures { result ≡ self.now.server }
    {
        self.server
    }

    /// How many RESTART entries have the cause REDO.
    pub fn redo(&self) -> u32
        ensures { result ≡ self.now.redo }
    {
        self.redo
    }

    /// How many RESTART entries a terminal has.
    pub fn restarts(&self, terminal: u32) -> u32
        requires { terminal < length self.now.restarts }
        ensures { result ≡ slice_index_or self.now.restarts terminal 0 }
    {
        self.restarts[terminal as usize]
    }

    /// How many TAKE entries a class has.
    pub fn taken(&self, class: u32) -> u32
        requires { class < length self.now.taken }
        ensures { result ≡ slice_index_or self.now.taken class 0 }
    {
        self.taken[class as usize]
    }
}

/// So many zeros.
pub fn zeros(alloc: Global, count: usize) -> Result<Vec<u32>, Memory>
    ensures { IfOk result (λ counts. counts.items ≡ replicate count 0) }
{
    let mut counts = Vec::new(alloc);
    for _ in 0..count {
        counts.push(0)?;
    }
    Ok(counts)
}

/// Counts one more at a place, where there is one.
pub fn count_at(counts: &mut Vec<u32>, place: u32)
    ensures { counts.new.items ≡ more_at (Some place) counts.old.items }
{
    if (place as usize) < counts.len() {
        let count = counts[place as usize];
        counts[place as usize] = count.saturating_add(1);
    }
}
