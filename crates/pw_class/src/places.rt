ghost use Rattle.std.specs.Prelude.{◌≡◌, ◌≢◌, ◌<◌, ℕ, [], None, length, OnOk};
ghost use Rattle.pw_class.specs.Places.{noted_place};

use crate::request::RequestPlace;
use pw_base::memory::Memory;
use std::alloc::Global;
use std::marker::Model;

/// Where the request of each terminal is, so that it is found without a walk over those that wait. Contracts see the
/// places by the numbers of the terminals.
#[derive(Debug, Drop)]
pub struct RequestPlaces {
    places: Vec<Option<RequestPlace>>,
}

impl Model for RequestPlaces {
    ghost use Rattle.std.specs.Prelude.{List, Option};
    ghost use Rattle.pw_class.specs.declared.request.RequestPlace.{RequestPlace as SeenPlace};

    ghost Value = { List (Option SeenPlace) };

    ghost view = { λ places. places.places.items };
}

impl RequestPlaces {
    /// No terminal has a request.
    pub fn new(alloc: Global) -> RequestPlaces
        ensures { result ≡ [] }
    {
        RequestPlaces {
            places: Vec::new(alloc),
        }
    }

    /// What is noted of a terminal, None where that is nothing.
    pub fn get(&self, terminal: u32) -> Option<RequestPlace>
        ensures { result ≡ noted_place self.now terminal }
    {
        let place = self.places.get(terminal as usize)?;
        *place
    }

    /// Makes room for a terminal. What is noted stays, whatever comes of it.
    pub fn reserve(&mut self, terminal: u32) -> Result<(), Memory>
        ensures room { OnOk result (terminal < length self.new) }
        ensures same { (other : ℕ) → noted_place self.new other ≡ noted_place self.old other }
    {
        while self.places.len() <= terminal as usize {
            self.places.push(None)?;
        }
        Ok(())
    }

    /// Notes where the request of a terminal is, or that it has none. It takes no memory.
    pub fn set(&mut self, terminal: u32, place: Option<RequestPlace>)
        requires room { terminal < length self.old }
        ensures here { noted_place self.new terminal ≡ place }
        ensures others { (other : ℕ) → other ≢ terminal → noted_place self.new other ≡ noted_place self.old other }
    {
        self.places[terminal as usize] = place;
    }

    /// Notes that a terminal has no request. It takes no memory.
    pub fn clear(&mut self, terminal: u32)
        ensures here { noted_place self.new terminal ≡ None }
        ensures others { (other : ℕ) → other ≢ terminal → noted_place self.new other ≡ noted_place self.old other }
    {
        if (terminal as usize) < self.places.len() {
            self.set(terminal, None);
        }
    }
}
