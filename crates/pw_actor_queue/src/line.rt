//! A line of places.

ghost use Rattle.std.specs.Prelude.{◌≡◌, ◌<◌, ◌++◌, [], IfOk, IfSome, None};
ghost use Rattle.std.specs.Option.{option_to_list};
ghost use Rattle.pw_actor_queue.specs.Line.{behind_all};

use crate::places::PLACES;
use pw_base::memory::Memory;
use std::alloc::Global;
use std::collections::VecDeque;
use std::marker::Model;

/// A line of places, each of them once. Its memory is there from the first.
#[derive(Debug, Drop)]
pub struct PlaceLine {
    waiting: VecDeque<u16>,
    /// For each place whether it stands in line.
    stands: Vec<bool>,
}

impl Model for PlaceLine {
    ghost use Rattle.std.specs.Prelude.{ℕ, List};
    ghost use Rattle.std.specs.VecDeque.{deque_capacity};
    ghost use Rattle.pw_actor_queue.specs.Line.{IsPlaceLine};

    ghost Value = { List ℕ };

    ghost view = { λ line. line.waiting.items };

    ghost invariant = { λ line. IsPlaceLine (deque_capacity line.waiting) line.stands.items line.waiting.items };
}

impl PlaceLine {
    /// A line in which nobody stands.
    pub fn new(alloc: Global) -> Result<PlaceLine, Memory>
        ensures { IfOk result (λ line. line ≡ []) }
    {
        Ok(PlaceLine {
            waiting: VecDeque::with_capacity(alloc, PLACES)?,
            stands: vec![in alloc; false; PLACES]?,
        })
    }

    /// A place stands at the end of the line, unless it stands in line.
    pub fn call(&mut self, place: usize)
        requires { place < 408 }
        ensures { self.new ≡ behind_all place self.old }
    {
        if self.stands[place] {
            return;
        }
        self.stands[place] = true;
        match self.waiting.push_back(place as u16) {
            Ok(()) => (),
            Err(_) => unreachable!(),
        }
    }

    /// The first in line leaves it, None exactly where nobody stands there.
    pub fn leave(&mut self) -> Option<usize>
        ensures line { self.old ≡ option_to_list result ++ self.new }
        ensures none { result ≡ None → self.old ≡ [] }
        ensures low { IfSome result (λ place. place < 408) }
    {
        let place = self.waiting.pop_front()? as usize;
        self.stands[place] = false;
        Some(place)
    }
}
