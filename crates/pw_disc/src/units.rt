ghost use Rattle.std.specs.Prelude.{◌≡◌, ◌≢◌, ◌∷◌, [], IfOk};

use pw_base::memory::Memory;
use pw_code::unit::Unit;
use std::alloc::Global;
use std::marker::Model;

/// Some units, at least one. Contracts see the list, which is never empty.
#[derive(Debug, Drop)]
pub struct Units {
    units: Vec<Unit>,
}

impl Model for Units {
    ghost use Rattle.std.specs.Prelude.{List, [], ◌≢◌};
    ghost use Rattle.pw_code.specs.declared.unit.Unit.{Unit};

    ghost Value = { List Unit };

    ghost view = { λ units. units.units.items };

    ghost invariant = { λ units. units.units.items ≢ [] };
}

impl Units {
    /// A unit, and others behind it.
    pub fn new(alloc: Global, first: Unit, others: &[Unit]) -> Result<Units, Memory>
        ensures { IfOk result (λ units. units ≡ first ∷ others.now) }
    {
        let mut units = Vec::new(alloc);
        units.push(first)?;
        units.extend_from_slice(others)?;
        Ok(Units { units })
    }

    /// A copy of some units.
    pub fn from_slice(alloc: Global, units: &[Unit]) -> Result<Units, Memory>
        requires { units.now ≢ [] }
        ensures { IfOk result (λ copy. copy ≡ units.now) }
    {
        Ok(Units {
            units: Vec::from_slice(alloc, units)?,
        })
    }

    /// The units in order, at least one. It takes no memory.
    pub fn as_slice(&self) -> &[Unit]
        ensures units { result.now ≡ self.now }
        ensures some { self.now ≢ [] }
    {
        self.units.as_slice()
    }

    /// The first unit, and the others.
    pub fn split_first(&self) -> (Unit, &[Unit])
        ensures { self.now ≡ result.0 ∷ result.1.now }
    {
        let (first, others) = self.units.split_at(1);
        (first[0], others)
    }
}
