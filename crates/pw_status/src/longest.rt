ghost use Rattle.std.specs.Prelude.{◌≡◌, ◌<◌, [], IfOk, Some, length, slice_index_or};
ghost use Rattle.pw_status.specs.Longest.{AreLongestOf, longest_with, sent_to};
ghost use Rattle.pw_onecopy.specs.Behaviour.{Behaviour};

use crate::counters::zeros;
use pw_base::memory::Memory;
use pw_event::event::Event;
use std::alloc::Global;
use std::marker::Model;

/// For each class the greatest number of requests that waited at once.
#[derive(Debug, Drop)]
pub struct Longest {
    classes: Vec<u32>,
}

impl Model for Longest {
    ghost use Rattle.std.specs.Prelude.{List, ℕ};

    ghost Value = { List ℕ };

    ghost view = { λ longest. longest.classes.items };
}

impl Longest {
    /// Before the first entry, for so many classes.
    pub fn new(alloc: Global, classes: usize) -> Result<Longest, Memory>
        ensures count { IfOk result (λ longest. length longest ≡ classes) }
        ensures longest { IfOk result (λ longest. (sys : Behaviour) → AreLongestOf sys [] longest) }
    {
        Ok(Longest {
            classes: zeros(alloc, classes)?,
        })
    }

    /// Takes one more entry in. Behind a SEND so many requests wait for its class. It takes no memory.
    pub fn push(&mut self, entry: &Event, waiting: u32)
        ensures { self.new ≡ longest_with (sent_to entry.now) waiting self.old }
    {
        if let Event::Send { class, .. } = *entry {
            self.raise(class, waiting);
        }
    }

    /// So many wait for a class.
    fn raise(&mut self, class: u32, waiting: u32)
        ensures { self.new ≡ longest_with (Some class) waiting self.old }
    {
        if (class as usize) < self.classes.len() {
            let longest = self.classes[class as usize];
            self.classes[class as usize] = longest.max(waiting);
        }
    }

    /// The greatest number of a class.
    pub fn of(&self, class: u32) -> u32
        requires { class < length self.now }
        ensures { result ≡ slice_index_or self.now class 0 }
    {
        self.classes[class as usize]
    }
}
