//! What the type of a world keeps, shown to whoever has one.

ghost use Rattle.pw_world.specs.Ledgers.{books_of};
ghost use Rattle.pw_world.specs.States.{seen};
ghost use Rattle.pw_world_model.specs.Worlds.{IsWorld};

use crate::world::World;
use pw_tmf::disc::Disc;

impl<D: Disc> World<D> {
    /// Shows that the world is one: its log is a run, and what it keeps stands for the state after it. It
    /// does nothing.
    pub fn holds(&self)
        ensures { IsWorld (seen D.told self.now) (books_of self.now.ledger) }
    {
        let _failed = self.failed;
    }
}
