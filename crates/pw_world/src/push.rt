//! What `apply` and `enter` share: one more entry.

ghost use Rattle.std.specs.Prelude.{◌≡◌, IfErr, OnOk, false, true};
ghost use Rattle.pw_entry_effects.specs.Can.{CanAct};
ghost use Rattle.pw_world_store.specs.Calls.{members_in};
ghost use Rattle.pw_world_store.specs.Keeps.{IsChanged, IsRefused, kept_in};
ghost use Rattle.pw_world_state.specs.Entered.{entered};
ghost use Rattle.pw_world.specs.Applying.{IsUnpushed};
ghost use Rattle.pw_world.specs.States.{seen};
ghost use Rattle.pw_world_model.specs.Pushed.{CanPush, pushed};

use crate::ledger::Ledger;
use crate::stamping::book;
use crate::world::World;
use pw_entry_effects::act::act;
use pw_event::event::Event;
use pw_tmf::answer::DiscFault;
use pw_tmf::disc::Disc;
use pw_world_store::keep::Keep;

impl<D: Disc> World<D> {
    /// Enters an entry that is a step. Where it is refused, all stays but the disc's count, and that a
    /// fault was answered.
    pub(crate) fn push(&mut self, entry: &Event) -> Result<(), DiscFault>
        requires can { CanPush (seen D.told self.old) entry.now }
        requires sound { self.old.failed ≡ false }
        ensures ok { OnOk result (seen D.told self.new ≡ pushed (seen D.told self.old) entry.now) }
        ensures err { IfErr result (λ fault.
            IsUnpushed fault (seen D.told self.old) (seen D.told self.new)) }
    {
        let booking = self.booking(entry)?;
        self.keep.known_parts();
        match make(&mut self.keep, &mut self.ledger, entry) {
            Ok(()) => {
                book(&mut self.ledger, &self.keep, entry, booking);
                Ok(())
            }
            Err(DiscFault::Failed) => {
                self.failed = true;
                Err(DiscFault::Failed)
            }
            Err(DiscFault::Memory) => Err(DiscFault::Memory),
        }
    }
}

/// Does an entry to what is kept, where the books have room for it.
fn make<D: Disc>(keep: &mut Keep<D>, ledger: &mut Ledger, entry: &Event) -> Result<(), DiscFault>
    requires { CanAct keep.old.system (kept_in D.told keep.old) entry.now }
    ensures ok { OnOk result (IsChanged D.told
        (entered keep.old.system (members_in (kept_in D.told keep.old)) entry.now) keep.old keep.new) }
    ensures err { IfErr result (λ fault. IsRefused D.told fault keep.old keep.new) }
    ensures spare { OnOk result (ledger.new.spare ≡ true) }
    ensures room { ledger.new ≡ record ledger.old { spare = ledger.new.spare } }
{
    ledger.reserve()?;
    act(keep, entry)
}
