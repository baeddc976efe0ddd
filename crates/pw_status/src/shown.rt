ghost use Rattle.std.specs.BTreeSet.{btree_set_len};
ghost use Rattle.std.specs.Prelude.{◌≡◌, ◌<◌, [], IfOk, OnErr, length};
ghost use Rattle.pw_status.specs.Shown.{AreShownOf, IsForgotten, IsNumberNoted, IsSameAs, numbers_of};

use pw_base::memory::Memory;
use pw_report_text::numbers::ListedRefreshNumber;
use std::alloc::Global;
use std::collections::BTreeSet;
use std::marker::Model;

/// The different refresh numbers of each terminal.
#[derive(Debug, Drop)]
pub struct Numbers {
    terminals: Vec<BTreeSet<ListedRefreshNumber>>,
}

impl Model for Numbers {
    ghost use Rattle.std.specs.BTreeSet.{BTreeSet};
    ghost use Rattle.std.specs.Prelude.{List};
    ghost use Rattle.pw_report_text.specs.declared.numbers.ListedRefreshNumber.{ListedRefreshNumber};

    ghost Value = { List (BTreeSet ListedRefreshNumber) };

    ghost view = { λ numbers. numbers.terminals.items };
}

impl Numbers {
    /// None, for so many terminals.
    pub fn new(alloc: Global, terminals: usize) -> Result<Numbers, Memory>
        ensures count { IfOk result (λ numbers. length numbers ≡ terminals) }
        ensures none { IfOk result (AreShownOf []) }
    {
        Ok(Numbers {
            terminals: empty_sets(alloc, terminals)?,
        })
    }

    /// Notes a refresh number of a terminal; whether it is new. An `Err` leaves all as it was.
    pub fn note(&mut self, terminal: u32, number: ListedRefreshNumber) -> Result<bool, Memory>
        requires { terminal < length self.old }
        ensures ok { IfOk result (λ fresh. IsNumberNoted terminal number fresh self.old self.new) }
        ensures err { OnErr result (IsSameAs self.old self.new) }
    {
        Ok(self.terminals[terminal as usize].insert(number)?)
    }

    /// Forgets a number that was new.
    pub fn forget(&mut self, terminal: u32, number: ListedRefreshNumber)
        requires { terminal < length self.old }
        ensures { IsForgotten terminal number self.old self.new }
    {
        self.terminals[terminal as usize].remove(&number);
    }

    /// How many numbers a terminal has.
    pub fn count(&self, terminal: u32) -> usize
        requires { terminal < length self.now }
        ensures { result ≡ btree_set_len (numbers_of self.now terminal) }
    {
        self.terminals[terminal as usize].len()
    }
}

/// Empty sets, for so many terminals.
fn empty_sets(alloc: Global, count: usize) -> Result<Vec<BTreeSet<ListedRefreshNumber>>, Memory>
    ensures count { IfOk result (λ sets. length sets.items ≡ count) }
    ensures empty { IfOk result (λ sets. (t : _) → t < count → (numbers_of sets.items t).keys ≡ []) }
{
    let mut sets = Vec::new(alloc);
    for _ in 0..count {
        sets.push(BTreeSet::new(alloc))?;
    }
    Ok(sets)
}
