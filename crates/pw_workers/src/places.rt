//! The lanes of a run's pairs, each in its place or with a worker.

ghost use Rattle.std.specs.Prelude.{◌≡◌, ◌<◌, IfOk, IfSome, IsSome, MatchOption, None, length, position};
ghost use Rattle.std.specs.Option.{is_some};
ghost use Rattle.pw_world.specs.States.{seen};
ghost use Rattle.pw_world_model.specs.Calls.{lent};
ghost use Rattle.pw_workers.specs.Places.{AreAsked, IsLaneAsked, IsAskedAt, IsTakenFirst, waits_at};

use crate::lane::LinkLane;
use pw_base::memory::Memory;
use pw_tmf::disc::Disc;
use pw_world::world::World;
use std::mem;
use std::sync::Wait;

/// Whether a task waits on a lane that is in its place.
pub fn is_any_waiting(places: &[Option<LinkLane>]) -> bool
    ensures { result ≡ is_some (position waits_at places.now) }
{
    first_waiting(places).is_some()
}

/// The place of the first lane on which a task waits.
fn first_waiting(places: &[Option<LinkLane>]) -> Option<usize>
    ensures { result ≡ position waits_at places.now }
{
    places.iter().position(|place| is_waiting_at(place))
}

/// Whether a task waits on the lane of a place.
fn is_waiting_at(place: &Option<LinkLane>) -> bool
    ensures { result ≡ waits_at place.now }
{
    match place {
        Some(lane) => lane.is_waiting(),
        None => false,
    }
}

/// Takes the first lane on which a task waits out of its place.
pub fn take_first(places: &mut [Option<LinkLane>]) -> Option<(usize, LinkLane)>
    ensures found { IfSome result (λ found. (found.0 < length places.old) × IsSome found.1.waiting) }
    ensures first { IfSome result (λ found. IsTakenFirst places.old places.new found.0 found.1) }
    ensures none { result ≡ None → (position waits_at places.old ≡ None) × (places.new ≡ places.old) }
    ensures places { length places.new ≡ length places.old }
{
    let tcp = first_waiting(places)?;
    match mem::take(&mut places[tcp]) {
        Some(lane) => Some((tcp, lane)),
        None => unreachable!(),
    }
}

/// Sends the work of building images that there is down each lane that is in its place and free.
pub fn lend_down<D: Disc, R: Wait>(
    rt: &R,
    world: &World<D>,
    places: &mut [Option<LinkLane>],
) -> Result<(), Memory>
    requires { length places.old ≡ length world.now.keep.system.tcps }
    ensures length { length places.new ≡ length places.old }
    ensures asked { IfOk result (λ u. AreAsked (seen D.told world.now) places.old places.new) }
{
    let system = world.system();
    for tcp in 0..system.tcps.len() {
        lend_at(rt, world, tcp as u32, &mut places[tcp])?;
    }
    Ok(())
}

/// Sends the work of building an image that a pair has down the lane of its place, where this is there and free.
fn lend_at<D: Disc, R: Wait>(
    rt: &R,
    world: &World<D>,
    tcp: u32,
    place: &mut Option<LinkLane>,
) -> Result<(), Memory>
    requires { tcp < length world.now.keep.system.tcps }
    ensures { IfOk result (λ u. IsAskedAt (lent ((seen D.told world.now).kept.pairs tcp)) place.old place.new) }
{
    match place {
        Some(lane) => lend_one(rt, world, tcp, lane),
        None => Ok(()),
    }
}

/// Sends the work of building an image that a pair has down its lane, where this is free.
fn lend_one<D: Disc, R: Wait>(
    rt: &R,
    world: &World<D>,
    tcp: u32,
    lane: &mut LinkLane,
) -> Result<(), Memory>
    requires { tcp < length world.now.keep.system.tcps }
    ensures { IfOk result (λ u. IsLaneAsked (lent ((seen D.told world.now).kept.pairs tcp)) lane.old lane.new) }
{
    if lane.is_waiting() {
        return Ok(());
    }
    if let Some(task) = world.lend(tcp)? {
        lane.send(rt, task);
    }
    Ok(())
}
