//! Turns in place: a task is claimed, run on and applied in one call of the world, and images are built where they are lent.

ghost use Rattle.std.specs.Prelude.{◌≡◌, ◌⊎◌, ◌≤◌, ℕ, IsSome, None, OnOk, false, length, true};
ghost use Rattle.pw_world.specs.States.{seen};
ghost use Rattle.pw_world_model.specs.Answers.{HasFailed, IsWorldIdle};
ghost use Rattle.pw_workers.specs.Calls.{AreTasksSmall};
ghost use Rattle.pw_workers.specs.InPlace.{AreTurnsInPlace, BuildsEach, BuildsInPlace, BuildsWaiting, GoesOnInPlace, IsTurnInPlace, WorksInPlace};
ghost use Rattle.pw_workers.specs.Turns.{CanBuild};

use crate::lane::LinkLane;
use crate::shared::{Naming, Shared};
use pw_base::memory::Memory;
use pw_tmf::disc::Disc;
use pw_world::world::World;
use pw_world_model::answers::{Applied, Worked};
use std::alloc::Global;
use std::sync::Wait;

/// So many turns in place are taken at most before a task is run outside the lock again, which tells how large tasks are.
const TURNS: u32 = 256;

impl<D: Disc, N: Naming> Shared<D, N> {
    /// Goes on in place until the run has ended, or everybody who may work is out.
    pub fn go_on_alone<R: Wait>(&mut self, rt: &R, alloc: Global)
        requires { self.old.end ≡ None }
        ensures turns { (turns : ℕ) × AreTurnsInPlace D.told turns self.old self.new }
        ensures stops { IsSome self.new.end ⊎ IsWorldIdle (seen D.told self.new.world) }
    {
        for _ in rt.forever() {
            if !self.turn_in_place(rt, alloc) {
                return;
            }
        }
        unreachable!()
    }

    /// Goes on in place for a while where the run goes on and tasks are small, and else does nothing.
    pub fn go_on_small<R: Wait>(&mut self, rt: &R, alloc: Global)
        ensures ended { IsSome self.old.end → self.new ≡ self.old }
        ensures large { (¬ AreTasksSmall self.old.calls) → self.new ≡ self.old }
        ensures turns { (turns : ℕ) × ((turns ≤ 256) × AreTurnsInPlace D.told turns self.old self.new) }
    {
        if !self.has_ended() && self.are_tasks_small() {
            self.take_turns(rt, alloc);
        }
    }

    /// Goes on in place for a while, where the run goes on.
    fn take_turns<R: Wait>(&mut self, rt: &R, alloc: Global)
        requires { self.old.end ≡ None }
        ensures { (turns : ℕ) × ((turns ≤ 256) × AreTurnsInPlace D.told turns self.old self.new) }
    {
        for _ in 0..TURNS {
            if !self.turn_in_place(rt, alloc) {
                return;
            }
        }
    }

    /// Makes a turn in place, where the run goes on: the first image that waits is built, and where none does, the world works.
    /// Whether another one may follow.
    fn turn_in_place<R: Wait>(&mut self, rt: &R, alloc: Global) -> bool
        requires { self.old.end ≡ None }
        ensures turn { IsTurnInPlace D.told self.old self.new }
        ensures goes_on { result ≡ true → self.new.end ≡ None }
        ensures stops { result ≡ false → IsSome self.new.end ⊎ IsWorldIdle (seen D.told self.new.world) }
    {
        match self.waiting_lane() {
            Some((tcp, lane)) => {
                self.build_in_place(rt, alloc, tcp, lane);
                !self.has_ended()
            }
            None => self.work_in_place(),
        }
    }

    /// Builds and files the image of the task that waits on a lane, and puts the lane back in its place.
    fn build_in_place<R: Wait>(&mut self, rt: &R, alloc: Global, tcp: usize, mut lane: LinkLane)
        requires goes_on { self.old.end ≡ None }
        requires can { CanBuild N.system tcp lane }
        ensures { BuildsInPlace D.told tcp lane self.old self.new }
    {
        match lane.build(rt, alloc) {
            Ok(done) => self.give_back(tcp, lane, done),
            Err(Memory) => self.want_memory(),
        }
    }

    /// The world works, and the run goes on behind that. Whether it may work again.
    fn work_in_place(&mut self) -> bool
        requires { self.old.end ≡ None }
        ensures works { WorksInPlace D.told self.old self.new }
        ensures goes_on { result ≡ true → self.new.end ≡ None }
        ensures stops { result ≡ false → IsSome self.new.end ⊎ IsWorldIdle (seen D.told self.new.world) }
    {
        match self.worked() {
            Worked::Applied(answer) => {
                self.go_on_in_place(answer);
                !self.has_ended()
            }
            Worked::Idle => false,
            Worked::DiscFault => {
                self.end_at_fault();
                false
            }
            Worked::Finished | Worked::Limit | Worked::Memory => {
                self.end_run();
                false
            }
        }
    }

    /// Goes on in place behind an answer of the world.
    fn go_on_in_place(&mut self, answer: Applied)
        requires goes_on { self.old.end ≡ None }
        requires failed { answer ≡ Applied.DiscFault → HasFailed (seen D.told self.old.world) }
        ensures { GoesOnInPlace D.told answer self.old self.new }
    {
        match answer {
            Applied::Done | Applied::Unbuilt => self.build_waiting(),
            Applied::Stale { .. } | Applied::Unrun | Applied::Held => (),
            Applied::Limit | Applied::Memory => self.end_run(),
            Applied::DiscFault => self.end_at_fault(),
        }
    }

    /// Builds the first image of each pair that waits, in its place, where the run goes on. Want of memory ends the run.
    fn build_waiting(&mut self)
        requires { self.old.end ≡ None }
        ensures { BuildsWaiting D.told self.old self.new }
    {
        match self.built_each() {
            Ok(()) => (),
            Err(Memory) => self.end_run(),
        }
    }

    /// Builds the first image of each pair that waits, in its place, where the run goes on, and says whether memory sufficed.
    fn built_each(&mut self) -> Result<(), Memory>
        requires { self.old.end ≡ None }
        ensures ok { OnOk result
            (BuildsEach (length self.old.world.keep.system.tcps) (seen D.told self.old.world) (seen D.told self.new.world)) }
        ensures asked { (pairs : ℕ) × BuildsEach pairs (seen D.told self.old.world) (seen D.told self.new.world) }
        ensures rest { self.new ≡ record self.old { world = self.new.world } }
    {
        build_each(&mut self.world)
    }
}

/// Builds the first image of each pair that waits, in its place.
fn build_each<D: Disc>(world: &mut World<D>) -> Result<(), Memory>
    ensures ok { OnOk result
        (BuildsEach (length world.old.keep.system.tcps) (seen D.told world.old) (seen D.told world.new)) }
    ensures asked { (pairs : ℕ) × BuildsEach pairs (seen D.told world.old) (seen D.told world.new) }
{
    let pairs = world.system().tcps.len();
    for tcp in 0..pairs {
        world.build_first(tcp as u32)?;
    }
    Ok(())
}
