ghost use Rattle.std.specs.Prelude.{◌≡◌, ◌==◌, ◌<◌, ◌^◌, ◌-◌, All, length, IfOk};
ghost use Rattle.std.specs.List.{IsDistinct};
ghost use Rattle.pw_code.specs.Valid.{IsValid};
ghost use Rattle.pw_world_store.specs.Calls.{members_in};
ghost use Rattle.pw_world_store.specs.Keeps.{IsKeep, kept_in};
ghost use Rattle.pw_world_store.specs.Starting.{IsIdleDisc, first_kept};
ghost use Rattle.pw_world_state.specs.Changes.{births_behind, unit_at};
ghost use Rattle.pw_world_state.specs.Entered.{tcp_of};

use crate::job::Jobs;
use crate::pieces::members;
use crate::seat::Seat;
use crate::starting::{first_pairs, first_seats, no_jobs};
use pw_base::memory::Memory;
use pw_class::book::ClassBook;
use pw_code::system::System;
use pw_code::unit::Unit;
use pw_pair::pair::Pair;
use pw_tmf::disc::Disc;
use std::alloc::Global;
use std::marker::Model;

/// What a monitor keeps of a running system (docs/design/ARCHITECTURE.md). Contracts see the system and what is
/// kept of it; each call but the reading ones is what one kind of entry does to that.
#[derive(Drop)]
pub struct Keep<D: Disc> {
    pub(crate) alloc: Global,
    pub(crate) system: System,
    pub(crate) seats: Vec<Seat>,
    pub(crate) disc: D,
    pub(crate) classes: ClassBook,
    pub(crate) jobs: Vec<Jobs>,
    pub(crate) pairs: Vec<Pair>,
    /// How many units have begun.
    pub(crate) births: u64,
}

impl<D: Disc> Model for Keep<D> {
    ghost use Rattle.pw_world_store.specs.Keeps.{IsKeep, KeepState};

    ghost Value = { KeepState D };

    ghost view = { λ keep. record {
      system = keep.system;
      seats = keep.seats.items;
      disc = keep.disc;
      book = keep.classes;
      jobs = keep.jobs.items;
      pairs = keep.pairs.items;
      births = keep.births;
    } };

    ghost invariant = { λ keep. IsKeep keep.system keep.seats.items (D.told keep.disc) keep.classes keep.jobs.items keep.pairs.items };
}

impl<D: Disc> Keep<D> {
    /// What is kept before the first entry, over a disc of the system on which no unit is open.
    pub fn new(alloc: Global, system: System, disc: D) -> Result<Keep<D>, Memory>
        requires valid { IsValid system }
        requires idle { IsIdleDisc system (D.told disc) }
        ensures system { IfOk result (λ keep. keep.system ≡ system) }
        ensures disc { IfOk result (λ keep. keep.disc ≡ disc) }
        ensures kept { IfOk result (λ keep. kept_in D.told keep ≡ first_kept system (D.told disc)) }
    {
        let seats = first_seats(alloc, &system)?;
        let classes = ClassBook::new(alloc, &system)?;
        let jobs = no_jobs(alloc, system.classes.as_slice())?;
        let pairs = first_pairs(alloc, &system)?;
        Ok(Keep {
            alloc,
            system,
            seats,
            disc,
            classes,
            jobs,
            pairs,
            births: 0,
        })
    }

    /// The system.
    pub fn system(&self) -> &System
        ensures { result.now ≡ self.now.system }
    {
        &self.system
    }

    /// Each part of what is kept has the size that the system says, and a pair has its terminals. It
    /// does nothing.
    pub fn known_parts(&self)
        ensures { IsKeep self.now.system self.now.seats (D.told self.now.disc) self.now.book self.now.jobs
            self.now.pairs }
    {
        let _births = self.births;
    }

    /// The disc, as the calls left it.
    pub fn disc(&self) -> &D
        ensures { result.now ≡ self.now.disc }
    {
        &self.disc
    }

    /// The same disc, where nothing else is wanted any more.
    pub fn into_disc(self) -> D
        ensures { result ≡ self.disc }
    {
        self.disc
    }

    /// The unit of this number, as the disc is asked for it.
    pub(crate) fn unit_at(&self, terminal: u32, number: u32) -> Unit
        requires { terminal < length self.now.system.terminals }
        ensures { result ≡ unit_at (kept_in D.told self.now) terminal number }
    {
        let birth = match self.seats[terminal as usize].unit {
            Some(open) => open.birth,
            None => self.births,
        };
        Unit {
            terminal,
            number,
            birth,
        }
    }

    /// How many units have begun, where one of the terminal begins, or begins again.
    pub(crate) fn births_behind(&self, terminal: u32) -> u64
        requires known { terminal < length self.now.system.terminals }
        requires births { self.now.births < 2 ^ 64 - 1 }
        ensures { result ≡ births_behind ((kept_in D.told self.now).disc.units terminal) self.now.births }
    {
        match self.seats[terminal as usize].unit {
            Some(_) => self.births,
            None => self.births + 1,
        }
    }

    /// The terminals of a pair.
    pub(crate) fn members(&self, tcp: u32) -> Result<Vec<u32>, Memory>
        requires { tcp < length self.now.system.tcps }
        ensures terminals { IfOk result (λ terminals. terminals.items ≡ members_in (kept_in D.told self.now) tcp) }
        ensures known { IfOk result (λ terminals. All (λ t. t < length self.now.system.terminals) terminals.items) }
        ensures distinct { IfOk result (λ terminals. IsDistinct (λ a b. a == b) terminals.items) }
    {
        let terminals = members(self.alloc, self.pair(tcp))?;
        Ok(terminals)
    }

    /// The pair of a terminal.
    pub(crate) fn pair_of(&self, terminal: u32) -> u32
        requires { terminal < length self.now.system.terminals }
        ensures pair { result ≡ tcp_of self.now.system terminal }
        ensures known { result < length self.now.system.tcps }
    {
        self.system.terminals.as_slice()[terminal as usize].tcp
    }
}
