//! A disc pair that its script cannot lose.

ghost use Rattle.std.specs.Prelude.{◌≡◌, false, IfOk};
ghost use Rattle.pw_code.specs.Valid.{IsValid};
ghost use Rattle.pw_disc.specs.Lasting.{IsLasting};
ghost use Rattle.pw_disc.specs.Lines.{may_lose};
ghost use Rattle.pw_disc.specs.Pair.{state_of};
ghost use Rattle.pw_disc.specs.declared.standing.DiscPairState.TheVariants.{Two};
ghost use Rattle.pw_tmf.specs.Starting.{told_at_start};

use crate::pair::DiscPair;
use crate::script::DiscScript;
use pw_base::bytes::Bytes;
use pw_base::memory::Memory;
use pw_code::file::FileCall;
use pw_code::system::System;
use pw_code::unit::Unit;
use pw_tmf::answer::{DiscFault, Ended, FileAnswer, Foreseen};
use pw_tmf::disc::Disc;
use std::alloc::Global;
use std::marker::Model;

/// A disc pair whose script has no PRIMARY AFTER line directly behind a PRIMARY AFTER or BACKUP AFTER
/// line. It is never lost, so no call of it fails.
#[derive(Debug, Drop)]
pub struct LastingPair {
    pair: DiscPair,
}

impl Model for LastingPair {
    ghost use Rattle.pw_disc.specs.Lasting.{IsLasting as LastsAlways};
    ghost use Rattle.pw_disc.specs.Pair.{PairKept, state_of as state_in};

    ghost Value = { PairKept };

    ghost view = { λ lasting. lasting.pair };

    ghost invariant = { λ lasting. LastsAlways (state_in lasting.pair) };
}

impl LastingPair {
    /// The records of a valid system's files, kept by two members, where no unit has begun.
    pub fn new(alloc: Global, system: &System, script: DiscScript) -> Result<LastingPair, Memory>
        requires valid { IsValid system.now }
        requires lasts { may_lose script.lines ≡ false }
        ensures { IfOk result (λ pair. state_of pair ≡ record {
          standing = Two;
          told = told_at_start system.now;
          lines = script.lines;
          done = 0;
        }) }
    {
        let pair = DiscPair::new(alloc, system, script)?;
        Ok(LastingPair { pair })
    }

    /// No call of it has failed. This does nothing: it shows it.
    pub fn known(&self)
        ensures { IsLasting (state_of self.now) }
    {
        let _pair = &self.pair;
    }
}

impl Disc for LastingPair {
    ghost told = { λ pair. (state_of pair).told };

    fn begin(&mut self, unit: &Unit) -> Result<(), DiscFault> {
        self.pair.begin(unit)
    }

    fn operate(&mut self, unit: &Unit, call: &FileCall) -> FileAnswer {
        self.pair.operate(unit, call)
    }

    fn commit(&mut self, unit: &Unit, reply: Option<Bytes>) -> Result<(), DiscFault> {
        self.pair.commit(unit, reply)
    }

    fn back_out(&mut self, units: &[Unit], ends: bool) -> Result<(), DiscFault> {
        self.pair.back_out(units, ends)
    }

    fn ended(&self, terminal: u32) -> Option<&Ended> {
        self.pair.ended(terminal)
    }

    fn committed(&self, alloc: Global, file: u32) -> Result<Vec<Bytes>, Memory> {
        self.pair.committed(alloc, file)
    }

    fn awaits(&self, unit: &Unit, call: &FileCall, holder: &Unit) -> Result<bool, Memory> {
        self.pair.awaits(unit, call, holder)
    }

    fn foresee(&self, unit: &Unit, call: &FileCall) -> Result<Foreseen, Memory> {
        self.pair.foresee(unit, call)
    }
}
