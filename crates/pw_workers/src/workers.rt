//! The workers of a run.

ghost use Rattle.std.specs.Prelude.{◌≡◌, ◌≤◌, All, IfOk, None, length};
ghost use Rattle.std.specs.Thread.{IsSend, IsSync};
ghost use Rattle.pw_code.specs.Valid.{IsValid};
ghost use Rattle.pw_world.specs.States.{seen};
ghost use Rattle.pw_workers.specs.Ends.{EndsSo, IsFor};
ghost use Rattle.pw_workers.specs.Places.{IsFreeAt};
ghost use Rattle.pw_workers.specs.Turns.{CanBuild, CanDo, CanRun};

use crate::calls::WorkerCall;
use crate::end::{RunEnd, end_of};
use crate::gate::{Gate, Step};
use crate::lane::LinkLane;
use crate::shared::{Naming, Shared};
use crate::turn::WorkerTurn;
use pw_base::memory::Memory;
use pw_code::copies::Duplicate;
use pw_code::system::System;
use pw_tmf::disc::Disc;
use pw_world::task::run_task;
use pw_world::world::World;
use pw_world_model::task::Task;
use std::alloc::Global;
use std::marker::Brand;
use std::sync::{Condvar, Mutex, MutexGuard, Wait};
use std::thread::{Threads, join};

/// The lock of a run, and what tells that there is more to do.
#[derive(Drop)]
struct RunLock<D: Disc, N: Naming> {
    shared: Mutex<Shared<D, N>>,
    more: Condvar,
}

impl<D: Disc, N: Naming> RunLock<D, N> {
    /// What the worker does next; where it waits, it has waited.
    fn next<R: Wait>(&self, rt: &R) -> WorkerTurn
        ensures { CanDo N.system result }
    {
        self.leave(rt, self.shared.lock(rt))
    }

    /// What a worker does next that is done with something and has the lock. Where there is more to do, it
    /// calls another that waits.
    fn leave<R: Wait>(&self, rt: &R, mut shared: MutexGuard<'_, Shared<D, N>>) -> WorkerTurn
        ensures { CanDo N.system result }
    {
        let turn = shared.next();
        if matches!(&turn, WorkerTurn::Wait) {
            return self.wait(rt, shared);
        }
        let call = shared.calls_behind(&turn);
        drop(shared);
        self.tell(call);
        turn
    }

    /// Wakes those that are called.
    fn tell(&self, call: WorkerCall) {
        match call {
            WorkerCall::Nobody => (),
            WorkerCall::One => self.more.notify_one(),
            WorkerCall::All => self.more.notify_all(),
        }
    }

    /// Waits until another worker calls or the run has ended, and gives what the worker does then.
    fn wait<R: Wait>(&self, rt: &R, mut shared: MutexGuard<'_, Shared<D, N>>) -> WorkerTurn
        ensures { CanDo N.system result }
    {
        shared.wait();
        let mut called = self
            .more
            .wait_while(rt, shared, |shared| shared.goes_on_waiting());
        let turn = called.called();
        if matches!(&turn, WorkerTurn::Stop) {
            self.more.notify_all();
        }
        turn
    }

    /// Runs a task outside the lock, passes the gate and applies what came of it. Where tasks are small and no gate may hold
    /// the worker, it goes on under the lock for a while.
    fn run<G: Gate, R: Wait>(
        &self,
        rt: &R,
        alloc: Global,
        system: &System,
        gate: &G,
        task: Task,
    ) -> WorkerTurn
        requires system { system.now ≡ N.system }
        requires valid { IsValid N.system }
        requires can { CanRun N.system task }
        ensures { CanDo N.system result }
    {
        let step = Step {
            actor: task.actor,
            stamp: task.stamp,
        };
        match run_task(system, task) {
            Ok(outcome) => {
                gate.pass(step);
                let statements = outcome.work.as_ref().map_or(0, |work| work.count);
                let mut shared = self.shared.lock(rt);
                shared.ran(statements);
                shared.apply(rt, outcome);
                if gate.is_open() {
                    shared.go_on_small(rt, alloc);
                }
                self.leave(rt, shared)
            }
            Err(Memory) => self.end_for_memory(rt),
        }
    }

    /// Builds the image for which a task waits on a lane, outside the lock.
    fn build<R: Wait>(&self, rt: &R, alloc: Global, tcp: usize, mut lane: LinkLane) -> WorkerTurn
        requires { CanBuild N.system tcp lane }
        ensures { CanDo N.system result }
    {
        match lane.build(rt, alloc) {
            Ok(done) => {
                let mut shared = self.shared.lock(rt);
                shared.give_back(tcp, lane, done);
                self.leave(rt, shared)
            }
            Err(Memory) => self.end_for_memory(rt),
        }
    }

    /// Want of memory ends the run.
    fn end_for_memory<R: Wait>(&self, rt: &R) -> WorkerTurn
        ensures { CanDo N.system result }
    {
        let mut shared = self.shared.lock(rt);
        shared.want_memory();
        self.leave(rt, shared)
    }
}

/// One worker: it works until the run has ended.
fn one<D: Disc, N: Naming, G: Gate, R: Wait>(
    rt: &R,
    alloc: Global,
    lock: &RunLock<D, N>,
    system: &System,
    gate: &G,
)
    requires system { system.now ≡ N.system }
    requires valid { IsValid N.system }
{
    let mut turn = lock.next(rt);
    for _ in rt.forever() {
        turn = match turn {
            WorkerTurn::Build { tcp, lane } => lock.build(rt, alloc, tcp, lane),
            WorkerTurn::Run(task) => lock.run(rt, alloc, system, gate, task),
            WorkerTurn::Wait => lock.next(rt),
            WorkerTurn::Stop => return,
        };
    }
}

/// So many workers, from 1 on.
#[cycle(start)]
fn start<D: Disc, N: Naming, G: Gate, R: Threads + Wait + Sync>(
    rt: &R,
    alloc: Global,
    lock: &RunLock<D, N>,
    system: &System,
    count: u8,
    gate: &G,
)
    requires shared { IsSync R.row × (IsSync G.row × (IsSend D.row × IsSend N.row)) }
    requires system { system.now ≡ N.system }
    requires valid { IsValid N.system }
{
    if count <= 1 {
        one(rt, alloc, lock, system, gate);
        return;
    }
    let half = count / 2;
    let rest = count - half;
    join(
        rt,
        || -> ()
            requires { IsSync R.row × (IsSync G.row × (IsSend D.row × (IsSend N.row
                × ((system.now ≡ N.system) × IsValid N.system)))) }
        { start(rt, alloc, lock, system, half, gate) },
        || -> ()
            requires { IsSync R.row × (IsSync G.row × (IsSend D.row × (IsSend N.row
                × ((system.now ≡ N.system) × IsValid N.system)))) }
        { start(rt, alloc, lock, system, rest, gate) },
    );
}

/// Runs workers over what is behind a lock until the run has ended. A worker that is alone takes no lock, where no gate may
/// hold it.
fn until_end<D: Disc, N: Naming, G: Gate, R: Threads + Wait + Sync>(
    rt: &R,
    alloc: Global,
    first: Shared<D, N>,
    system: &System,
    count: u8,
    gate: &G,
) -> (World<D>, RunEnd)
    requires system { system.now ≡ N.system }
    requires valid { IsValid N.system }
    requires goes_on { first.end ≡ None }
    ensures same { IsFor N.system N.script N.log N.limit N.faults (seen D.told result.0) }
    ensures ends { EndsSo result.1 (seen D.told result.0) }
{
    let mut shared = first;
    if count == 1 && gate.is_open() {
        shared.go_on_alone(rt, alloc);
    }
    for _ in rt.forever() {
        if let Some(end) = shared.end {
            return (shared.world, end);
        }
        let lock = RunLock {
            shared: Mutex::new(shared),
            more: Condvar::new(),
        };
        start(rt, alloc, &lock, system, count, gate);
        shared = lock.shared.into_inner();
    }
    unreachable!()
}

/// A lane for each pair, in its place.
fn lanes(alloc: Global, count: usize) -> Result<Vec<Option<LinkLane>>, Memory>
    ensures each { IfOk result (λ lanes. length lanes.items ≡ count) }
    ensures free { IfOk result (λ lanes. All IsFreeAt lanes.items) }
{
    let mut lanes = Vec::new(alloc);
    for _ in 0..count {
        lanes.push(Some(LinkLane::new(alloc)?))?;
    }
    Ok(lanes)
}

/// What a run takes beside its world: a copy of the system, which is read outside the lock, and the
/// lanes of its pairs.
fn prepare(alloc: Global, system: &System) -> Result<(System, Vec<Option<LinkLane>>), Memory>
    ensures system { IfOk result (λ made. made.0 ≡ system.now) }
    ensures lanes { IfOk result (λ made. length made.1.items ≡ length system.now.tcps) }
    ensures free { IfOk result (λ made. All IsFreeAt made.1.items) }
{
    let copy = system.copy(alloc)?;
    let lanes = lanes(alloc, copy.tcps.len())?;
    Ok((copy, lanes))
}

/// Runs a world that knows which it is with so many workers, and gives it back with how the run ended.
fn run_named<D: Disc, N: Naming, G: Gate, R: Threads + Wait + Sync>(
    rt: &R,
    alloc: Global,
    world: World<D>,
    count: u8,
    gate: &G,
) -> (World<D>, RunEnd)
    requires same { IsFor N.system N.script N.log N.limit N.faults (seen D.told world) }
    ensures same { IsFor N.system N.script N.log N.limit N.faults (seen D.told result.0) }
    ensures ends { EndsSo result.1 (seen D.told result.0) }
{
    let Ok((system, lanes)) = prepare(alloc, world.system()) else {
        let end = end_of(&world);
        return (world, end);
    };
    let shared: Shared<D, N> = Shared::new(world, lanes);
    until_end(rt, alloc, shared, &system, count, gate)
}

/// Runs a world with so many workers until its log is finished or full, its disc has failed or memory
/// runs out (docs/design/ARCHITECTURE.md), and gives it back with the cause. Each entry of its log is made under
/// the one lock, or by a worker that is alone. It may wait for a thread.
pub fn run_workers<D: Disc, G: Gate, R: Threads + Wait + Sync>(
    rt: &R,
    alloc: Global,
    world: World<D>,
    count: u8,
    gate: &G,
) -> (World<D>, RunEnd)
    requires count { (1 ≤ count) × (count ≤ 16) }
    ensures same { IsFor world.keep.system world.script world.ledger.log world.limit
        (D.told world.first).faults (seen D.told result.0) }
    ensures ends { EndsSo result.1 (seen D.told result.0) }
{
    run_named::<D, Brand, G, R>(rt, alloc, world, count, gate)
}
