ghost use Rattle.std.specs.Prelude.{◌≡◌, ◌||◌, [], List, ℕ, IfOk, OnOk, bytes_eq};
ghost use Rattle.pw_words.specs.Names.{has_name, with_name};

use indexmap::IndexSet;
use pw_base::memory::Memory;
use std::alloc::Global;
use std::marker::Model;

/// Names, each once, in the order in which they were put. Names are the same where their bytes are.
/// Contracts see them in their order. Whether a name is there is found by its hash.
#[derive(Drop)]
pub struct Names {
    names: IndexSet<Vec<u8>>,
}

impl Model for Names {
    ghost use Rattle.std.specs.Prelude.{List, ℕ, map};

    ghost Value = { List (List ℕ) };

    ghost view = { λ names. map (λ name. name.items) names.names.keys };
}

impl Names {
    /// No names. It takes no memory.
    pub fn new(alloc: Global) -> Names
        ensures { result ≡ [] }
    {
        Names {
            names: IndexSet::new(alloc),
        }
    }

    /// Puts a name behind the others, unless it is there. It gives whether it was there.
    pub fn put(&mut self, name: Vec<u8>) -> Result<bool, Memory>
        ensures taken { IfOk result (λ taken. taken ≡ has_name self.old name.items) }
        ensures names { OnOk result (self.new ≡ with_name self.old name.items) }
        ensures words { OnOk result ((word : List ℕ)
            → has_name self.new word ≡ (bytes_eq name.items word || has_name self.old word)) }
    {
        let is_new = self.names.insert(name)?;
        Ok(!is_new)
    }

    /// Whether a name is there.
    pub fn has(&self, name: &[u8]) -> bool
        ensures { result ≡ has_name self.now name.now }
    {
        self.names.contains(name)
    }
}
