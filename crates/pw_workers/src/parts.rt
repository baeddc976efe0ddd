//! The small steps on what is behind the lock of a run: each changes one part of it.

ghost use Rattle.std.specs.Prelude.{◌≡◌, ◌<◌, ◌↔◌, Bool, Ok, IfSome, IsSome, IsTrue, None, Some, false, length, position, slice_set};
ghost use Rattle.std.specs.Option.{ForSome, is_some};
ghost use Rattle.pw_world.specs.States.{seen};
ghost use Rattle.pw_world_model.specs.Actors.{IsActor};
ghost use Rattle.pw_world_model.specs.Answers.{AnswersApply, Claims, HasFailed, LeavesApplied};
ghost use Rattle.pw_world_model.specs.Calls.{GivesBack};
ghost use Rattle.pw_world_model.specs.Working.{Works};
ghost use Rattle.pw_world_model.specs.declared.answers.Claim.TheVariants as claim;
ghost use Rattle.pw_world_model.specs.declared.task.Task.{Task as SeenTask};
ghost use Rattle.pw_world_state.specs.Members.{members_of};
ghost use Rattle.pw_workers.specs.Applies.{IsLent};
ghost use Rattle.pw_workers.specs.Calls.{AreTasksSmall, IsCallWorth, called, come, ran, waited};
ghost use Rattle.pw_workers.specs.Claims.{EndsRun};
ghost use Rattle.pw_workers.specs.Places.{IsTakenFirst, waits_at};
ghost use Rattle.pw_workers.specs.Turns.{CanBuild, CanRun};

use crate::end::{end_at_fault, end_of};
use crate::lane::LinkLane;
use crate::places::{is_any_waiting, lend_down, take_first};
use crate::shared::{Naming, Shared};
use pw_base::memory::Memory;
use pw_pair::link::LinkDone;
use pw_tmf::disc::Disc;
use pw_world_model::answers::{Applied, Claim, Worked};
use pw_world_model::task::{Outcome, Task};
use std::mem;
use std::sync::Wait;

impl<D: Disc, N: Naming> Shared<D, N> {
    /// Whether the run has ended.
    pub fn has_ended(&self) -> bool
        ensures { result ≡ is_some self.now.end }
    {
        self.end.is_some()
    }

    /// The run ends, as its log says, and else for want of memory.
    pub fn end_run(&mut self)
        requires { self.old.end ≡ None }
        ensures { EndsRun self.old self.new }
    {
        self.end = Some(end_of(&self.world));
    }

    /// The run ends, as its log says, and else by a fault of the disc.
    pub fn end_at_fault(&mut self)
        requires goes_on { self.old.end ≡ None }
        requires failed { HasFailed (seen D.told self.old.world) }
        ensures { EndsRun self.old self.new }
    {
        self.end = Some(end_at_fault(&self.world));
    }

    /// Asks the world for a task, where the run goes on.
    pub fn claimed(&mut self) -> Result<Claim, Memory>
        requires { self.old.end ≡ None }
        ensures claims { Claims (seen D.told self.old.world) result (seen D.told self.new.world) }
        ensures can { (task : SeenTask) → result ≡ Ok (claim.Work task) → CanRun N.system task }
        ensures rest { self.new ≡ record self.old { world = self.new.world } }
    {
        self.world.claim()
    }

    /// What the world answers to an outcome, where the run goes on.
    pub fn answer(&mut self, outcome: Outcome) -> Applied
        requires goes_on { self.old.end ≡ None }
        requires over { outcome.over.value ≡ N.system }
        requires actor { IsActor N.system outcome.actor }
        ensures comes { AnswersApply (seen D.told self.old.world) outcome result }
        ensures leaves { LeavesApplied (members_of self.old.world.keep.system) (seen D.told self.old.world)
            outcome result (seen D.told self.new.world) }
        ensures failed { result ≡ Applied.DiscFault → HasFailed (seen D.told self.new.world) }
        ensures rest { self.new ≡ record self.old { world = self.new.world } }
    {
        self.world.apply(outcome)
    }

    /// What the world answers that works, where the run goes on.
    pub fn worked(&mut self) -> Worked
        requires { self.old.end ≡ None }
        ensures works { Works (members_of self.old.world.keep.system) (seen D.told self.old.world) result
            (seen D.told self.new.world) }
        ensures failed { result ≡ Worked.DiscFault → HasFailed (seen D.told self.new.world) }
        ensures fault { result ≡ Worked.Applied Applied.DiscFault → HasFailed (seen D.told self.new.world) }
        ensures rest { self.new ≡ record self.old { world = self.new.world } }
    {
        self.world.holds();
        self.world.work()
    }

    /// Files an image that was built, where the run goes on.
    pub fn file(&mut self, done: LinkDone)
        ensures filed { self.old.end ≡ None → (filed : Bool)
            × GivesBack (seen D.told self.old.world) done filed (seen D.told self.new.world) }
        ensures ended { IsSome self.old.end → self.new ≡ self.old }
        ensures rest { self.new ≡ record self.old { world = self.new.world } }
    {
        if self.end.is_none() {
            let _filed = self.world.give_back(done);
        }
    }

    /// Puts a lane back in its place.
    pub fn put_lane(&mut self, tcp: usize, lane: LinkLane)
        requires { tcp < length N.system.tcps }
        ensures { self.new ≡ record self.old { lanes = slice_set self.old.lanes tcp (Some lane) } }
    {
        self.lanes[tcp] = Some(lane);
    }

    /// Whether a task waits on a lane that is in its place.
    pub fn is_lane_waiting(&self) -> bool
        ensures { result ≡ is_some (position waits_at self.now.lanes) }
    {
        is_any_waiting(self.lanes.as_slice())
    }

    /// Takes the first lane on which a task waits out of its place.
    pub fn waiting_lane(&mut self) -> Option<(usize, LinkLane)>
        ensures found { IfSome result (λ found. CanBuild N.system found.0 found.1) }
        ensures first { IfSome result (λ found. IsTakenFirst self.old.lanes self.new.lanes found.0 found.1) }
        ensures none { result ≡ None → (position waits_at self.old.lanes ≡ None) × (self.new ≡ self.old) }
        ensures rest { self.new ≡ record self.old { lanes = self.new.lanes } }
    {
        take_first(self.lanes.as_mut_slice())
    }

    /// Sends the work of building an image down each lane that is in its place and free. Want of memory
    /// ends the run.
    pub fn lend<R: Wait>(&mut self, rt: &R)
        requires { self.old.end ≡ None }
        ensures { IsLent D.told self.old self.new }
    {
        if lend_down(rt, &self.world, self.lanes.as_mut_slice()).is_err() {
            self.end = Some(end_of(&self.world));
        }
    }

    /// Whether a task stands ready for whoever comes next.
    pub fn is_ready(&self) -> bool
        ensures { result ≡ is_some self.now.ready }
    {
        self.ready.is_some()
    }

    /// Takes the task that stands ready.
    pub fn take_ready(&mut self) -> Option<Task>
        ensures task { result ≡ self.old.ready }
        ensures can { ForSome result (CanRun N.system) }
        ensures rest { self.new ≡ record self.old { ready = None } }
    {
        mem::take(&mut self.ready)
    }

    /// A task stands ready for whoever comes next.
    pub fn keep_ready(&mut self, task: Task)
        requires { CanRun N.system task }
        ensures { self.new ≡ record self.old { ready = Some task } }
    {
        self.ready = Some(task);
    }

    /// Whether to call another worker is worth it, where there is more to do.
    pub fn is_call_worth(&self) -> bool
        ensures { IsTrue result ↔ IsCallWorth self.now.calls }
    {
        self.calls.is_worth()
    }

    /// Whether tasks are so small that to hand the lock on costs more than to run one.
    pub fn are_tasks_small(&self) -> bool
        ensures { IsTrue result ↔ AreTasksSmall self.now.calls }
    {
        self.calls.are_tasks_small()
    }

    /// A worker is called.
    pub fn call(&mut self)
        ensures { self.new ≡ record self.old { calls = called self.old.calls } }
    {
        self.calls.call();
    }

    /// A worker begins to wait.
    pub fn wait(&mut self)
        ensures { self.new ≡ record self.old { calls = waited self.old.calls } }
    {
        self.calls.wait();
    }

    /// A worker that waited comes.
    pub fn come(&mut self)
        ensures { self.new ≡ record self.old { calls = come self.old.calls } }
    {
        self.calls.come();
    }

    /// A task of so many statements was run.
    pub fn ran(&mut self, statements: u32)
        ensures { self.new ≡ record self.old { calls = ran statements self.old.calls } }
    {
        self.calls.ran(statements);
    }

    /// Whether a worker that waits goes on waiting: none is called, and the run goes on.
    pub fn goes_on_waiting(&self) -> bool
        ensures { IsTrue result ↔ ((self.now.calls.is_open ≡ false) × (self.now.end ≡ None)) }
    {
        !self.calls.is_open() && self.end.is_none()
    }
}
