//! What is behind the lock of a run.

ghost use Rattle.std.specs.Prelude.{◌≡◌, ◌<◌, Bool, IsSome, None, Some, length, slice_set};
ghost use Rattle.pw_world.specs.States.{seen};
ghost use Rattle.pw_world_model.specs.Actors.{IsActor};
ghost use Rattle.pw_world_model.specs.Answers.{HasFailed};
ghost use Rattle.pw_world_model.specs.Calls.{GivesBack};
ghost use Rattle.pw_workers.specs.Applies.{Applies, GoesOnBehind};
ghost use Rattle.pw_workers.specs.Calls.{come, no_calls};
ghost use Rattle.pw_workers.specs.Claims.{CallsAnother, CallsBehind, EndsRun, HasMore, HasReady, IsClaimed, IsNextTurn, IsReadyOrClaimed};
ghost use Rattle.pw_workers.specs.Ends.{IsFor};
ghost use Rattle.pw_workers.specs.Turns.{CanDo};

use crate::calls::{WorkerCall, WorkerCalls};
use crate::end::RunEnd;
use crate::lane::LinkLane;
use crate::turn::WorkerTurn;
use pw_base::memory::Memory;
use pw_pair::link::LinkDone;
use pw_tmf::disc::Disc;
use pw_world::world::World;
use pw_world_model::answers::{Applied, Claim};
use pw_world_model::task::{Outcome, Task};
use std::marker::{Brand, Model, PhantomData};
use std::sync::Wait;

/// Which world it is: each run picks it.
pub trait Naming: Send + Sync {
    ghost use Rattle.std.specs.Prelude.{ℕ, List};
    ghost use Rattle.pw_code.specs.declared.system.System.{System};
    ghost use Rattle.pw_event.specs.declared.event.Event.{Event};
    ghost use Rattle.pw_event.specs.declared.script.FailLine.{FailLine};

    ghost system: { System };

    ghost script: { List FailLine };

    ghost log: { List Event };

    ghost limit: { ℕ };

    ghost faults: { ℕ };
}

impl Naming for Brand {
    ghost use Rattle.std.specs.Prelude.{[]};
    ghost use Rattle.pw_code.specs.declared.lock.LockRule.TheVariants.{ReadersShare};

    ghost system = { record {
      programs = [];
      servers = [];
      screens = [];
      classes = [];
      files = [];
      tcps = [];
      terminals = [];
      rule = ReadersShare;
    } };

    ghost script = { [] };

    ghost log = { [] };

    ghost limit = { 0 };

    ghost faults = { 0 };
}

/// What is behind the lock of a run: a world that knows which it is, the lanes of its pairs, each in
/// its place or with a worker, a task that is claimed for whoever comes next, if there is one, and how
/// the run has ended, if it has. Behind its end nobody changes the world.
#[derive(Drop)]
pub struct Shared<D: Disc, N: Naming> {
    pub(crate) world: World<D>,
    pub(crate) lanes: Vec<Option<LinkLane>>,
    pub(crate) ready: Option<Task>,
    pub(crate) end: Option<RunEnd>,
    /// Who waits, and whether to call one is worth it.
    pub(crate) calls: WorkerCalls,
    pub(crate) of: PhantomData<N>,
}

impl<D: Disc, N: Naming> Model for Shared<D, N> {
    ghost use Rattle.pw_world.specs.States.{seen};
    ghost use Rattle.pw_workers.specs.Locked.{IsLocked, Locked};

    ghost Value = { Locked D };

    ghost view = { λ shared. record {
      world = shared.world;
      lanes = shared.lanes.items;
      ready = shared.ready;
      end = shared.end;
      calls = shared.calls;
    } };

    ghost invariant = { λ shared. IsLocked N.system N.script N.log N.limit N.faults (seen D.told shared.world)
        (record {
          world = shared.world;
          lanes = shared.lanes.items;
          ready = shared.ready;
          end = shared.end;
          calls = shared.calls;
        }) };
}

impl<D: Disc, N: Naming> Shared<D, N> {
    /// The start of a run: no task stands ready, the run goes on, and nobody waits.
    pub fn new(world: World<D>, lanes: Vec<Option<LinkLane>>) -> Shared<D, N>
        requires same { IsFor N.system N.script N.log N.limit N.faults (seen D.told world) }
        requires lanes { length lanes.items ≡ length N.system.tcps }
        ensures { result ≡ record { world = world; lanes = lanes.items; ready = None; end = None; calls = no_calls } }
    {
        Shared {
            world,
            lanes,
            ready: None,
            end: None,
            calls: WorkerCalls::new(),
            of: PhantomData,
        }
    }

    /// What a worker does next. Images are built before anything is claimed.
    pub fn next(&mut self) -> WorkerTurn
        ensures can { CanDo N.system result }
        ensures ended { IsSome self.old.end → (result ≡ WorkerTurn.Stop) × (self.new ≡ self.old) }
        ensures next { self.old.end ≡ None → IsNextTurn D.told self.old result self.new }
    {
        if self.has_ended() {
            return WorkerTurn::Stop;
        }
        match self.waiting_lane() {
            Some((tcp, lane)) => WorkerTurn::Build { tcp, lane },
            None => self.ready_or_claimed(),
        }
    }

    /// What a worker does next that was called.
    pub fn called(&mut self) -> WorkerTurn
        ensures can { CanDo N.system result }
        ensures ended { IsSome self.old.end
            → (result ≡ WorkerTurn.Stop) × (self.new ≡ record self.old { calls = come self.old.calls }) }
        ensures next { self.old.end ≡ None
            → IsNextTurn D.told (record self.old { calls = come self.old.calls }) result self.new }
    {
        self.come();
        self.next()
    }

    /// Who is called behind a worker's turn: all at the end of the run, and another one where the worker goes on and there
    /// is more to do.
    pub fn calls_behind(&mut self, turn: &WorkerTurn) -> WorkerCall
        ensures { CallsBehind D.told turn.now self.old result self.new }
    {
        match turn {
            WorkerTurn::Stop => WorkerCall::All,
            WorkerTurn::Wait => WorkerCall::Nobody,
            WorkerTurn::Build { .. } | WorkerTurn::Run(_) => {
                if self.calls_another() {
                    WorkerCall::One
                } else {
                    WorkerCall::Nobody
                }
            }
        }
    }

    /// Calls a worker that waits, where tasks are worth it and there is more to do: an image to build, or a task, which is
    /// claimed for it here.
    fn calls_another(&mut self) -> bool
        ensures { CallsAnother D.told self.old result self.new }
    {
        if self.has_ended() || !self.is_call_worth() || !self.has_more() {
            return false;
        }
        self.call();
        true
    }

    /// Whether there is more to do, where the run goes on.
    fn has_more(&mut self) -> bool
        requires { self.old.end ≡ None }
        ensures { HasMore D.told self.old result self.new }
    {
        self.is_lane_waiting() || self.has_ready()
    }

    /// Whether a task stands ready for another worker, where the run goes on: where none does, one is claimed.
    fn has_ready(&mut self) -> bool
        requires { self.old.end ≡ None }
        ensures { HasReady D.told self.old result self.new }
    {
        if self.is_ready() {
            return true;
        }
        let WorkerTurn::Run(task) = self.claim() else {
            return false;
        };
        self.keep_ready(task);
        true
    }

    /// The task that stands ready, and where there is none, what the world has to be done, where the run goes on.
    fn ready_or_claimed(&mut self) -> WorkerTurn
        requires { self.old.end ≡ None }
        ensures can { CanDo N.system result }
        ensures turn { IsReadyOrClaimed D.told self.old.ready self.old result self.new }
    {
        match self.take_ready() {
            Some(task) => WorkerTurn::Run(task),
            None => self.claim(),
        }
    }

    /// What the world has to be done, where the run goes on.
    fn claim(&mut self) -> WorkerTurn
        requires { self.old.end ≡ None }
        ensures can { CanDo N.system result }
        ensures claims { IsClaimed D.told self.old result self.new }
    {
        match self.claimed() {
            Ok(Claim::Work(task)) => WorkerTurn::Run(task),
            Ok(Claim::Idle) => WorkerTurn::Wait,
            Ok(Claim::Finished) | Err(Memory) => {
                self.end_run();
                WorkerTurn::Stop
            }
        }
    }

    /// Applies what came of a task, and lends the work of building images that there is now. Behind the end of the run it
    /// does nothing.
    pub fn apply<R: Wait>(&mut self, rt: &R, outcome: Outcome)
        requires over { outcome.over.value ≡ N.system }
        requires actor { IsActor N.system outcome.actor }
        ensures ended { IsSome self.old.end → self.new ≡ self.old }
        ensures applies { self.old.end ≡ None
            → Applies D.told outcome self.old self.new }
    {
        if !self.has_ended() {
            self.apply_on(rt, outcome);
        }
    }

    /// Applies what came of a task where the run goes on, and lends the work of building images.
    fn apply_on<R: Wait>(&mut self, rt: &R, outcome: Outcome)
        requires goes_on { self.old.end ≡ None }
        requires over { outcome.over.value ≡ N.system }
        requires actor { IsActor N.system outcome.actor }
        ensures { Applies D.told outcome self.old self.new }
    {
        let answer = self.answer(outcome);
        self.go_on_behind(rt, answer);
    }

    /// Goes on behind an answer of the world.
    pub(crate) fn go_on_behind<R: Wait>(&mut self, rt: &R, answer: Applied)
        requires goes_on { self.old.end ≡ None }
        requires failed { answer ≡ Applied.DiscFault → HasFailed (seen D.told self.old.world) }
        ensures { GoesOnBehind D.told answer self.old self.new }
    {
        match answer {
            Applied::Done | Applied::Unbuilt => self.lend(rt),
            Applied::Stale { .. } | Applied::Unrun | Applied::Held => (),
            Applied::Limit | Applied::Memory => self.end_run(),
            Applied::DiscFault => self.end_at_fault(),
        }
    }

    /// Want of memory ends the run.
    pub fn want_memory(&mut self)
        ensures ended { IsSome self.old.end → self.new ≡ self.old }
        ensures ends { EndsRun self.old self.new }
    {
        if !self.has_ended() {
            self.end_run();
        }
    }

    /// Files an image that was built, where the run goes on, and puts the lane back in its place.
    pub fn give_back(&mut self, tcp: usize, lane: LinkLane, done: LinkDone)
        requires { tcp < length N.system.tcps }
        ensures lane { self.new.lanes ≡ slice_set self.old.lanes tcp (Some lane) }
        ensures filed { self.old.end ≡ None → (filed : Bool)
            × GivesBack (seen D.told self.old.world) done filed (seen D.told self.new.world) }
        ensures ended { IsSome self.old.end → self.new.world ≡ self.old.world }
        ensures rest { self.new ≡ record self.old { world = self.new.world; lanes = self.new.lanes } }
    {
        self.file(done);
        self.put_lane(tcp, lane);
    }
}
