//! A trail through a run, which knows with which files and units it began, and with how long a life of its disk.

ghost use Rattle.std.specs.Prelude.{◌≡◌};
ghost use Rattle.pw_deck_runs.specs.recovery.Kept.{IsKept, trail_state};

use pw_base::bytes::Bytes;
use pw_base::memory::Memory;
use pw_code::file::FileCall;
use pw_code::unit::Unit;
use pw_tmf::answer::{DiscFault, Ended, FileAnswer, Foreseen};
use pw_tmf::disc::Disc;
use pw_trail::synced::Synced;
use pw_trail::trail::Trail;
use std::alloc::Global;
use std::marker::{Brand, Model, PhantomData};

/// Which trail it is: each run picks it.
pub trait TrailNaming: Send + Sync {
    ghost use Rattle.std.specs.Prelude.{List};
    ghost use Rattle.pw_code.specs.declared.file.FileInfo.{FileInfo};
    ghost use Rattle.pw_trail.specs.declared.changes.UnitChanges.{UnitChanges};
    ghost use Rattle.pw_volume.specs.Life.{Life};

    /// The files whose changes it keeps.
    ghost files: { List FileInfo };

    /// The units that it had at the start.
    ghost before: { List UnitChanges };

    /// How long its disk lives from the start on.
    ghost life: { Life };
}

impl TrailNaming for Brand {
    ghost use Rattle.std.specs.Prelude.{[]};
    ghost use Rattle.pw_volume.specs.Life.{Endless};

    ghost files = { [] };

    ghost before = { [] };

    ghost life = { Endless };
}

/// A trail on a disk, through a run. Contracts see its files, its disk, and what it tells.
#[derive(Drop)]
pub struct KeptTrail<S: Synced, N: TrailNaming> {
    trail: Trail<S>,
    of: PhantomData<N>,
}

impl<S: Synced, N: TrailNaming> Model for KeptTrail<S, N> {
    ghost use Rattle.pw_deck_runs.specs.recovery.Kept.{IsKept as Keeps, TrailState, trail_state as state};

    ghost Value = { TrailState S };

    ghost view = { λ kept. state kept.trail.log.files kept.trail.log.disk kept.trail.log.is_broken
        kept.trail.faults kept.trail.tmf };

    ghost invariant = { λ kept. Keeps S.held S.images S.settled S.lasts N.files N.before N.life
        (state kept.trail.log.files kept.trail.log.disk kept.trail.log.is_broken kept.trail.faults kept.trail.tmf) };
}

impl<S: Synced, N: TrailNaming> KeptTrail<S, N> {
    /// The trail that it is.
    pub fn of(trail: Trail<S>) -> KeptTrail<S, N>
        requires { IsKept S.held S.images S.settled S.lasts N.files N.before N.life (trail_state trail.log.files
            trail.log.disk trail.log.is_broken trail.faults trail.tmf) }
        ensures { result ≡ trail_state trail.log.files trail.log.disk trail.log.is_broken
            trail.faults trail.tmf }
    {
        KeptTrail {
            trail,
            of: PhantomData,
        }
    }

    /// The trail, as the calls left it.
    pub fn into_trail(self) -> Trail<S>
        ensures is { trail_state result.log.files result.log.disk result.log.is_broken
            result.faults result.tmf ≡ self }
        ensures keeps { IsKept S.held S.images S.settled S.lasts N.files N.before N.life self }
    {
        let KeptTrail { trail, .. } = self;
        trail
    }
}

impl<S: Synced + Send, N: TrailNaming> Disc for KeptTrail<S, N> {
    ghost use Rattle.pw_deck_runs.specs.recovery.Kept.{told_in};

    ghost told = { told_in };

    fn begin(&mut self, unit: &Unit) -> Result<(), DiscFault> {
        self.trail.begin(unit)
    }

    fn operate(&mut self, unit: &Unit, call: &FileCall) -> FileAnswer {
        self.trail.operate(unit, call)
    }

    fn commit(&mut self, unit: &Unit, reply: Option<Bytes>) -> Result<(), DiscFault> {
        self.trail.commit(unit, reply)
    }

    fn back_out(&mut self, units: &[Unit], ends: bool) -> Result<(), DiscFault> {
        self.trail.back_out(units, ends)
    }

    fn ended(&self, terminal: u32) -> Option<&Ended> {
        self.trail.ended(terminal)
    }

    fn committed(&self, alloc: Global, file: u32) -> Result<Vec<Bytes>, Memory> {
        self.trail.committed(alloc, file)
    }

    fn awaits(&self, unit: &Unit, call: &FileCall, holder: &Unit) -> Result<bool, Memory> {
        self.trail.awaits(unit, call, holder)
    }

    fn foresee(&self, unit: &Unit, call: &FileCall) -> Result<Foreseen, Memory> {
        self.trail.foresee(unit, call)
    }
}
