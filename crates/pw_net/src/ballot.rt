ghost use Rattle.std.specs.Prelude.{◌≡◌, IfOk};
ghost use Rattle.pw_net.specs.Ballot.{still_missing};

use pw_base::memory::Memory;
use std::alloc::Global;
use std::marker::Model;

/// The votes of a transaction at its home: its other systems, and those whose vote is missing.
#[derive(Debug, Drop)]
pub struct Ballot {
    others: Vec<u32>,
    missing: Vec<u32>,
}

impl Model for Ballot {
    ghost use Rattle.pw_net.specs.Ballot.{Ballot as SeenBallot};

    ghost Value = { SeenBallot };

    ghost view = { λ ballot. record { others = ballot.others.items; missing = ballot.missing.items } };
}

impl Ballot {
    /// A ballot of these other systems, of which these have not voted yet. It takes no memory.
    pub fn new(others: Vec<u32>, missing: Vec<u32>) -> Ballot
        ensures { result ≡ record { others = others.items; missing = missing.items } }
    {
        Ballot { others, missing }
    }

    /// The other systems, in the order of the start.
    pub fn others(&self) -> &[u32]
        ensures { result.now ≡ self.now.others }
    {
        self.others.as_slice()
    }

    /// Those whose vote is still missing when this system has voted.
    pub fn still_missing(&self, alloc: Global, system: u32) -> Result<Vec<u32>, Memory>
        ensures { IfOk result (λ left. left.items ≡ still_missing system self.now) }
    {
        let mut left = self.missing.as_slice().to_vec(alloc)?;
        left.retain(|other| *other != system);
        Ok(left)
    }
}
