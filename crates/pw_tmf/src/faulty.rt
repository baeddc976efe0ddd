ghost use Rattle.std.specs.Prelude.{◌≡◌, ◌≢◌, [], true, All, Err, IfErr, IfOk, OnOk};
ghost use Rattle.pw_tmf.specs.Answers.{Leaves, Operates};
ghost use Rattle.pw_tmf.specs.Faulty.{call_counted, fails_next, told_by};
ghost use Rattle.pw_tmf.specs.Operation.{IsCall};
ghost use Rattle.pw_tmf.specs.Units.{HaveDistinctTerminals, CanBackOut, CanBegin, IsRunning, after_commit, all_backed_out, begun};

use crate::answer::{DiscFault, Ended, FileAnswer, Foreseen};
use crate::disc::Disc;
use pw_base::bytes::Bytes;
use pw_base::memory::Memory;
use pw_code::file::FileCall;
use pw_code::unit::Unit;
use std::alloc::Global;

/// The calls so far, how many of them failed, and the numbers of those that fail. The counts stand still at `u64::MAX`.
#[derive(Debug, Drop)]
pub struct Calls {
    pub made: u64,
    pub faults: u64,
    pub fail_at: Vec<u64>,
}

impl Calls {
    /// Counts a call, and tells whether it fails.
    fn fails(&mut self) -> bool
        ensures answer { result ≡ fails_next self.old }
        ensures counts { self.new ≡ call_counted self.old }
    {
        self.made = self.made.saturating_add(1);
        let fails = self.fail_at.contains(&self.made);
        if fails {
            self.faults = self.faults.saturating_add(1);
        }
        fails
    }
}

/// A disc that fails at calls which it is told: those of `begin`, `operate`, `commit` and `back_out` are numbered together
/// from 1. A call that fails answers Failed and does not reach the disc inside (docs/design/STORAGE.md).
#[derive(Drop)]
pub struct Faulty<D: Disc> {
    pub inner: D,
    pub calls: Calls,
}

impl<D: Disc> Faulty<D> {
    /// A disc over this one, whose calls of these numbers fail.
    pub fn new(alloc: Global, inner: D, fail_at: &[u64]) -> Result<Faulty<D>, Memory>
        ensures inner { IfOk result (λ faulty. faulty.inner ≡ inner) }
        ensures made { IfOk result (λ faulty. faulty.calls.made ≡ 0) }
        ensures faults { IfOk result (λ faulty. faulty.calls.faults ≡ 0) }
        ensures listed { IfOk result (λ faulty. faulty.calls.fail_at.items ≡ fail_at.now) }
    {
        Ok(Faulty {
            inner,
            calls: Calls {
                made: 0,
                faults: 0,
                fail_at: Vec::from_slice(alloc, fail_at)?,
            },
        })
    }
}

impl<D: Disc> Disc for Faulty<D> {
    ghost use Rattle.pw_tmf.specs.Faulty.{told_by};

    ghost told = { λ faulty. told_by D.told faulty };

    fn begin(&mut self, unit: &Unit) -> Result<(), DiscFault>
        requires { CanBegin (told_by D.told self.old) unit.now }
        ensures ok { OnOk result (told_by D.told self.new ≡ begun (told_by D.told self.old) unit.now) }
        ensures err { IfErr result (λ fault. Leaves fault (told_by D.told self.old) (told_by D.told self.new)) }
        ensures calls { self.new.calls ≡ call_counted self.old.calls }
        ensures failed { fails_next self.old.calls ≡ true
            → (result ≡ Err DiscFault.Failed) × (self.new.inner ≡ self.old.inner) }
    {
        if self.calls.fails() {
            return Err(DiscFault::Failed);
        }
        self.inner.begin(unit)
    }

    fn operate(&mut self, unit: &Unit, call: &FileCall) -> FileAnswer
        requires unit { IsRunning (told_by D.told self.old) unit.now }
        requires call { IsCall (told_by D.told self.old) call.now }
        ensures answer { Operates result (told_by D.told self.old) unit.now call.now (told_by D.told self.new) }
        ensures calls { self.new.calls ≡ call_counted self.old.calls }
        ensures failed { fails_next self.old.calls ≡ true
            → (result ≡ FileAnswer.Failed) × (self.new.inner ≡ self.old.inner) }
    {
        if self.calls.fails() {
            return FileAnswer::Failed;
        }
        self.inner.operate(unit, call)
    }

    fn commit(&mut self, unit: &Unit, reply: Option<Bytes>) -> Result<(), DiscFault>
        requires { IsRunning (told_by D.told self.old) unit.now }
        ensures ok { OnOk result (told_by D.told self.new ≡ after_commit (told_by D.told self.old) unit.now reply) }
        ensures err { IfErr result (λ fault. Leaves fault (told_by D.told self.old) (told_by D.told self.new)) }
        ensures calls { self.new.calls ≡ call_counted self.old.calls }
        ensures failed { fails_next self.old.calls ≡ true
            → (result ≡ Err DiscFault.Failed) × (self.new.inner ≡ self.old.inner) }
    {
        if self.calls.fails() {
            return Err(DiscFault::Failed);
        }
        self.inner.commit(unit, reply)
    }

    fn back_out(&mut self, units: &[Unit], ends: bool) -> Result<(), DiscFault>
        requires some { units.now ≢ [] }
        requires apart { HaveDistinctTerminals units.now }
        requires units { All (CanBackOut ends (told_by D.told self.old)) units.now }
        ensures ok { OnOk result (told_by D.told self.new
            ≡ all_backed_out ends (told_by D.told self.old) units.now) }
        ensures err { IfErr result (λ fault. Leaves fault (told_by D.told self.old) (told_by D.told self.new)) }
        ensures calls { self.new.calls ≡ call_counted self.old.calls }
        ensures failed { fails_next self.old.calls ≡ true
            → (result ≡ Err DiscFault.Failed) × (self.new.inner ≡ self.old.inner) }
    {
        if self.calls.fails() {
            return Err(DiscFault::Failed);
        }
        self.inner.back_out(units, ends)
    }

    fn ended(&self, terminal: u32) -> Option<&Ended> {
        self.inner.ended(terminal)
    }

    fn committed(&self, alloc: Global, file: u32) -> Result<Vec<Bytes>, Memory> {
        self.inner.committed(alloc, file)
    }

    fn awaits(&self, unit: &Unit, call: &FileCall, holder: &Unit) -> Result<bool, Memory> {
        self.inner.awaits(unit, call, holder)
    }

    fn foresee(&self, unit: &Unit, call: &FileCall) -> Result<Foreseen, Memory> {
        self.inner.foresee(unit, call)
    }
}
