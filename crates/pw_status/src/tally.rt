ghost use Rattle.std.specs.Prelude.{◌≡◌, ◌<◌, IfOk, length, slice_index_or};
ghost use Rattle.pw_status.specs.Tally.{IsFirstTally, IsNotedIn, units_in};

use crate::attempts::Attempts;
use crate::counters::Counters;
use crate::counts::UnitCounts;
use crate::longest::Longest;
use pw_base::memory::Memory;
use pw_code::system::System;
use pw_event::event::Event;
use std::alloc::Global;
use std::marker::Model;

/// What an entry meets, beside its own words.
#[derive(Clone, Copy, Debug, PartialEq, Eq)]
pub struct Met {
    /// Whether a REPLY OK commits its unit, and whether a FAIL TCP loses its pair.
    pub ends: bool,
    /// How many requests wait for the class of a SEND behind it.
    pub waiting: u32,
}

/// All that is counted of a log entry by entry, but for the refresh numbers (docs/guide/COMMANDS.md).
#[derive(Debug, Drop)]
pub struct Tally {
    counters: Counters,
    longest: Longest,
    attempts: Attempts,
}

impl Model for Tally {
    ghost use Rattle.pw_status.specs.Tally.{TallyState};

    ghost Value = { TallyState };

    ghost view = { λ tally. record {
      counters = tally.counters;
      longest = tally.longest;
      attempts = tally.attempts;
    } };
}

impl Tally {
    /// Before the first entry of a log of the system.
    pub fn new(alloc: Global, system: &System) -> Result<Tally, Memory>
        ensures { IfOk result (IsFirstTally system.now) }
    {
        let terminals = system.terminals.len();
        let classes = system.classes.len();
        Ok(Tally {
            counters: Counters::new(alloc, terminals, classes)?,
            longest: Longest::new(alloc, classes)?,
            attempts: Attempts::new(alloc, system)?,
        })
    }

    /// Takes one more entry in. It takes no memory.
    pub fn note(&mut self, entry: &Event, met: &Met)
        ensures { IsNotedIn entry.now met.now self.old self.new }
    {
        self.longest.push(entry, met.waiting);
        self.attempts.push(entry, met.ends);
        self.counters.push(entry);
    }

    /// How many RESTART entries a terminal has.
    pub fn restarts(&self, terminal: u32) -> u32
        requires { terminal < length self.now.counters.restarts }
        ensures { result ≡ slice_index_or self.now.counters.restarts terminal 0 }
    {
        self.counters.restarts(terminal)
    }

    /// How many TAKE entries a class has.
    pub fn taken(&self, class: u32) -> u32
        requires { class < length self.now.counters.taken }
        ensures { result ≡ slice_index_or self.now.counters.taken class 0 }
    {
        self.counters.taken(class)
    }

    /// The greatest number of requests that waited for a class at once.
    pub fn longest(&self, class: u32) -> u32
        requires { class < length self.now.longest }
        ensures { result ≡ slice_index_or self.now.longest class 0 }
    {
        self.longest.of(class)
    }

    /// What is counted of units.
    pub fn units(&self) -> UnitCounts
        ensures { result ≡ units_in self.now }
    {
        UnitCounts {
            begun: self.counters.begun(),
            committed: self.attempts.committed(),
            dropped: self.attempts.dropped(),
            left: self.attempts.left(),
            older: self.counters.older(),
            takeover: self.counters.takeover(),
            server: self.counters.server(),
            redo: self.counters.redo(),
        }
    }
}
