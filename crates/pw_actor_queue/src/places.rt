//! The place of each actor in one flat list.

ghost use Rattle.std.specs.Prelude.{◌≡◌, ◌<◌, true};
ghost use Rattle.pw_actor_queue.specs.Places.{actor_place, is_placed};

use crate::actor::Actor;

/// How many actors may have a place: 128 terminals, 16 processes of each of 16 classes, 8 pairs and
/// 16 classes.
pub const PLACES: usize = 408;

/// Whether there is a place for an actor.
pub fn is_placed(actor: Actor) -> bool
    ensures { result ≡ is_placed actor }
{
    match actor {
        Actor::Terminal(terminal) => terminal < 128,
        Actor::Process { class, process } => class < 16 && 1 <= process && process <= 16,
        Actor::Pair(pair) => pair < 8,
        Actor::Class(class) => class < 16,
    }
}

/// The place of an actor.
pub fn place_of(actor: Actor) -> usize
    requires { is_placed actor ≡ true }
    ensures place { result ≡ actor_place actor }
    ensures within { result < 408 }
{
    match actor {
        Actor::Terminal(terminal) => terminal as usize,
        Actor::Process { class, process } => 128 + class as usize * 16 + (process as usize - 1),
        Actor::Pair(pair) => 384 + pair as usize,
        Actor::Class(class) => 392 + class as usize,
    }
}

/// The actor at a place.
pub fn actor_at(place: usize) -> Actor
    requires { place < 408 }
    ensures placed { is_placed result ≡ true }
    ensures place { actor_place result ≡ place }
{
    if place < 128 {
        Actor::Terminal(place as u32)
    } else if place < 384 {
        let at = place - 128;
        Actor::Process {
            class: (at / 16) as u32,
            process: (at % 16) as u32 + 1,
        }
    } else if place < 392 {
        Actor::Pair((place - 384) as u32)
    } else {
        Actor::Class((place - 392) as u32)
    }
}
