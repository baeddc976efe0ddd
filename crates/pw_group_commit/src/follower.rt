//! Who is told of the units that are settled.

ghost use Rattle.std.specs.Prelude.{List, ◌++◌};

/// The name of a unit: its terminal, and its number there.
#[derive(Clone, Copy, Debug, PartialEq, Eq)]
pub struct UnitName {
    pub terminal: u32,
    pub number: u32,
}

/// Who follows a run: it is told of units once they are settled, group by group, in the order in which they committed.
pub trait Follower: Drop {
    ghost use Rattle.pw_group_commit.specs.declared.follower.UnitName.{UnitName};

    /// It was told these units, and no other, in this order.
    ghost was_told: { Self → List UnitName → Type 0 };

    /// With how many units that wait a group is full for it. A group has at most 32 in any case.
    fn group_size(&self) -> u32;

    /// Is told of more units.
    fn tell(&mut self, units: &[UnitName])
        ensures { (told : List UnitName) → was_told self.old told → was_told self.new (told ++ units.now) };
}

/// A follower that tells nobody.
#[derive(Clone, Copy, Debug, PartialEq, Eq)]
pub struct NoFollower;

impl Follower for NoFollower {
    ghost was_told = { λ _ _. Unit {0} };

    fn group_size(&self) -> u32 {
        u32::MAX
    }

    fn tell(&mut self, _units: &[UnitName]) {}
}
