ghost use Rattle.std.specs.Prelude.{◌≡◌, ◌-◌, ◌+◌, ◌^◌, ◌==◌, ◌&&◌, IfOk, count_by, map, min};
ghost use Rattle.pw_status.specs.Attempts.{IsStart, attempts_behind, begun_in, commits, drops, first_seat, is_over_by, running_of, stopped, stopped_by, stopped_of, with_runs};
ghost use Rattle.pw_status.specs.Counters.{more_if};
ghost use Rattle.pw_serial_order.specs.Entries.{changed_at};

use crate::over::{Over, Whose, begun, left_at, over_at};
use pw_base::memory::Memory;
use pw_code::system::System;
use pw_event::event::Event;
use pw_serial_order::block::How;
use std::alloc::Global;
use std::marker::Model;

/// Whether an attempt of a terminal runs.
#[derive(Clone, Copy, Debug, PartialEq, Eq)]
pub struct AttemptSeat {
    pub tcp: u32,
    pub runs: bool,
}

/// Which attempts run, and how many are over, by how.
#[derive(Debug, Drop)]
pub struct Attempts {
    committed: u32,
    dropped: u32,
    left: u64,
    seats: Vec<AttemptSeat>,
}

impl Model for Attempts {
    ghost use Rattle.pw_status.specs.Attempts.{AttemptsState};

    ghost Value = { AttemptsState };

    ghost view = { λ attempts. record {
      committed = attempts.committed;
      dropped = attempts.dropped;
      left = attempts.left;
      seats = attempts.seats.items;
    } };
}

impl Attempts {
    /// Before the first entry of a log of the system.
    pub fn new(alloc: Global, system: &System) -> Result<Attempts, Memory>
        ensures { IfOk result (IsStart system.now) }
    {
        Ok(Attempts {
            committed: 0,
            dropped: 0,
            left: 0,
            seats: first_seats(alloc, system)?,
        })
    }

    /// Takes one more entry in. `ends` tells of a REPLY whether it commits its unit, and of a FAIL TCP
    /// whether it loses its pair. It takes no memory.
    pub fn push(&mut self, entry: &Event, ends: bool)
        ensures { self.new ≡ attempts_behind ends entry.now self.old }
    {
        let over = over_at(entry, ends);
        self.count(over, left_at(entry, ends));
        self.stop(over);
        self.begin(begun(entry));
    }

    /// Counts attempts that are over so, and those that are left so far as they run.
    fn count(&mut self, over: Option<Over>, left: Option<Whose>)
        ensures { self.new ≡ record self.old {
          committed = more_if (is_over_by commits over) self.old.committed;
          dropped = more_if (is_over_by drops over) self.old.dropped;
          left = min (self.old.left + running_of self.old.seats left) (2 ^ 64 - 1);
        } }
    {
        let running = running_of(self.seats.as_slice(), left);
        self.left = self.left.saturating_add(running);
        match over {
            Some(over) => self.count_how(over.how),
            None => (),
        }
    }

    /// Counts one attempt that is over so.
    fn count_how(&mut self, how: How)
        ensures { self.new ≡ record self.old {
          committed = more_if (commits how) self.old.committed;
          dropped = more_if (drops how) self.old.dropped;
        } }
    {
        match how {
            How::Commit => self.committed = self.committed.saturating_add(1),
            How::Dropped => self.dropped = self.dropped.saturating_add(1),
            How::Restart | How::Left => (),
        }
    }

    /// Attempts are over.
    fn stop(&mut self, over: Option<Over>)
        ensures { self.new ≡ record self.old { seats = stopped_by over self.old.seats } }
    {
        match over {
            Some(over) => stop(&mut self.seats, over.whose),
            None => (),
        }
    }

    /// An attempt of a terminal begins.
    fn begin(&mut self, begun: Option<u32>)
        ensures { self.new ≡ record self.old { seats = begun_in begun self.old.seats } }
    {
        match begun {
            Some(terminal) => put(&mut self.seats, terminal, true),
            None => (),
        }
    }

    /// How many attempts have committed.
    pub fn committed(&self) -> u32
        ensures { result ≡ self.now.committed }
    {
        self.committed
    }

    /// How many were dropped.
    pub fn dropped(&self) -> u32
        ensures { result ≡ self.now.dropped }
    {
        self.dropped
    }

    /// How many were left.
    pub fn left(&self) -> u64
        ensures { result ≡ self.now.left }
    {
        self.left
    }
}

/// The seats of a system's terminals before the first entry.
fn first_seats(alloc: Global, system: &System) -> Result<Vec<AttemptSeat>, Memory>
    ensures { IfOk result (λ seats. seats.items ≡ map first_seat system.now.terminals) }
{
    let mut seats = Vec::new(alloc);
    for terminal in system.terminals.as_slice() {
        seats.push(AttemptSeat {
            tcp: terminal.tcp,
            runs: false,
        })?;
    }
    Ok(seats)
}

/// How many of these attempts run.
fn running_of(seats: &[AttemptSeat], whose: Option<Whose>) -> u64
    ensures { result ≡ running_of seats.now whose }
{
    match whose {
        None => 0,
        Some(Whose::One(terminal)) => match seats.get(terminal as usize).copied() {
            Some(seat) => seat.runs as u64,
            None => 0,
        },
        Some(Whose::Pair(tcp)) => running_of_pair(seats, tcp),
    }
}

/// How many attempts of a pair run.
fn running_of_pair(seats: &[AttemptSeat], tcp: u32) -> u64
    ensures { result ≡ count_by (λ seat. seat.tcp == tcp && seat.runs) seats.now }
{
    let mut count = 0;
    for seat in seats {
        if seat.tcp == tcp && seat.runs {
            count += 1;
        }
    }
    count
}

/// The attempts of these terminals are over.
fn stop(seats: &mut Vec<AttemptSeat>, whose: Whose)
    ensures { seats.new.items ≡ stopped whose seats.old.items }
{
    match whose {
        Whose::One(terminal) => put(seats, terminal, false),
        Whose::Pair(tcp) => stop_pair(seats, tcp),
    }
}

/// The attempts of a pair are over.
fn stop_pair(seats: &mut Vec<AttemptSeat>, tcp: u32)
    ensures { seats.new.items ≡ map (stopped_of tcp) seats.old.items }
{
    for seat in seats.iter_mut() {
        stop_one(seat, tcp);
    }
}

/// The attempt of a terminal is over where the terminal is of the pair.
fn stop_one(seat: &mut AttemptSeat, tcp: u32)
    ensures { seat.new ≡ stopped_of tcp seat.old }
{
    if seat.tcp == tcp {
        seat.runs = false;
    }
}

/// An attempt of a terminal runs, or none does.
fn put(seats: &mut Vec<AttemptSeat>, terminal: u32, runs: bool)
    ensures { seats.new.items ≡ changed_at terminal (with_runs runs) seats.old.items }
{
    if let Some(seat) = seats.get(terminal as usize).copied() {
        seats[terminal as usize] = AttemptSeat { runs, ..seat };
    }
}
