//! What entries do to units.

ghost use Rattle.std.specs.Prelude.{◌≡◌, ◌==◌, ◌<◌, ◌^◌, ◌-◌, All, IfErr, IfOk, OnOk, Some, length, true};
ghost use Rattle.std.specs.List.{IsDistinct};
ghost use Rattle.pw_world_store.specs.Calls.{kept_backed_out, kept_committed};
ghost use Rattle.pw_world_store.specs.Each.{without_units};
ghost use Rattle.pw_world_store.specs.Keeps.{IsChanged, IsRefused, kept_in};
ghost use Rattle.pw_world_state.specs.Changes.{kept_begin_send, kept_restart, leave, unit_at};
ghost use Rattle.pw_tmf.specs.Leaving.{open_units};
ghost use Rattle.pw_tmf.specs.Units.{CanBackOut, CanBegin, IsRunning};

use crate::each::end_units;
use crate::keep::Keep;
use crate::pieces::back_out;
use pw_base::bytes::Bytes;
use pw_base::memory::Memory;
use pw_code::context::Context;
use pw_code::unit::Unit;
use pw_event::event::Cause;
use pw_tmf::answer::DiscFault;
use pw_tmf::disc::Disc;

impl<D: Disc> Keep<D> {
    /// BEGIN of one SEND: an attempt of the unit runs from the terminal's context, of which `start`
    /// is a copy.
    pub fn begin_send(
        &mut self,
        terminal: u32,
        number: u32,
        start: Context,
    ) -> Result<(), DiscFault>
        requires known { terminal < length self.old.system.terminals }
        requires start { ((kept_in D.told self.old).terminals terminal).context ≡ Some start }
        requires may { CanBegin (kept_in D.told self.old).disc (unit_at (kept_in D.told self.old) terminal number) }
        requires births { self.old.births < 2 ^ 64 - 1 }
        ensures ok { OnOk result (IsChanged D.told (kept_begin_send terminal number) self.old self.new) }
        ensures err { IfErr result (λ fault. IsRefused D.told fault self.old self.new) }
    {
        let unit = self.unit_at(terminal, number);
        let births = self.births_behind(terminal);
        self.disc.begin(&unit)?;
        self.seats[terminal as usize].begin(unit, start);
        self.births = births;
        Ok(())
    }

    /// COMMIT, and REPLY of one SEND: the unit ends with its changes, one SEND with its kept reply. The program stands
    /// where it stood.
    pub fn commit(
        &mut self,
        terminal: u32,
        number: u32,
        reply: Option<Bytes>,
    ) -> Result<(), DiscFault>
        requires known { terminal < length self.old.system.terminals }
        requires runs { IsRunning (kept_in D.told self.old).disc (unit_at (kept_in D.told self.old) terminal number) }
        ensures ok { OnOk result (IsChanged D.told (kept_committed terminal number reply) self.old self.new) }
        ensures err { IfErr result (λ fault. IsRefused D.told fault self.old self.new) }
    {
        let unit = self.unit_at(terminal, number);
        self.disc.commit(&unit, reply)?;
        self.seats[terminal as usize].end_unit();
        Ok(())
    }

    /// BACK: the unit is backed out and ends. The program stands where it stood.
    pub fn back(&mut self, terminal: u32, number: u32) -> Result<(), DiscFault>
        requires known { terminal < length self.old.system.terminals }
        requires may { CanBackOut true (kept_in D.told self.old).disc (unit_at (kept_in D.told self.old) terminal number) }
        ensures ok { OnOk result (IsChanged D.told (kept_backed_out terminal number) self.old self.new) }
        ensures err { IfErr result (λ fault. IsRefused D.told fault self.old self.new) }
    {
        let units = [self.unit_at(terminal, number)];
        self.disc.back_out(&units, true)?;
        self.seats[terminal as usize].end_unit();
        Ok(())
    }

    /// RESTART: the attempt of the unit is backed out, and its terminal is at its start again, with no request out.
    pub fn restart(&mut self, terminal: u32, number: u32, cause: Cause) -> Result<(), DiscFault>
        requires known { terminal < length self.old.system.terminals }
        requires runs { IsRunning (kept_in D.told self.old).disc (unit_at (kept_in D.told self.old) terminal number) }
        requires few { ((kept_in D.told self.old).terminals terminal).restarts < 2 ^ 32 - 1 }
        ensures ok { OnOk result (IsChanged D.told (kept_restart terminal number cause) self.old self.new) }
        ensures err { IfErr result (λ fault. IsRefused D.told fault self.old self.new) }
    {
        let units = [self.unit_at(terminal, number)];
        self.disc.back_out(&units, false)?;
        self.seats[terminal as usize].restart(cause);
        self.cancel_one(terminal);
        Ok(())
    }

    /// The open units of these terminals, as the disc is asked for them.
    fn open_units(&self, terminals: &[u32]) -> Result<Vec<Unit>, Memory>
        requires known { All (λ t. t < length self.now.system.terminals) terminals.now }
        ensures { IfOk result (λ units. units.items
            ≡ open_units (kept_in D.told self.now).disc terminals.now) }
    {
        let mut units = Vec::new(self.alloc);
        for terminal in terminals {
            if let Some(unit) = self.seats[*terminal as usize].unit {
                units.push(unit)?;
            }
        }
        Ok(units)
    }

    /// The open units of these terminals end, and their changes are put back.
    fn end_units(&mut self, terminals: &[u32]) -> Result<(), DiscFault>
        requires known { All (λ t. t < length self.old.system.terminals) terminals.now }
        requires distinct { IsDistinct (λ a b. a == b) terminals.now }
        ensures ok { OnOk result (IsChanged D.told (without_units terminals.now) self.old self.new) }
        ensures err { IfErr result (λ fault. IsRefused D.told fault self.old self.new) }
    {
        let units = self.open_units(terminals)?;
        back_out(&mut self.disc, &units)?;
        end_units(&mut self.seats, terminals);
        Ok(())
    }

    /// The open units of these terminals are left: they are backed out and end, and their requests are cancelled.
    pub(crate) fn leave(&mut self, terminals: &[u32]) -> Result<(), DiscFault>
        requires known { All (λ t. t < length self.old.system.terminals) terminals.now }
        requires distinct { IsDistinct (λ a b. a == b) terminals.now }
        ensures ok { OnOk result (IsChanged D.told (leave terminals.now) self.old self.new) }
        ensures err { IfErr result (λ fault. IsRefused D.told fault self.old self.new) }
    {
        self.end_units(terminals)?;
        self.cancel(terminals);
        Ok(())
    }
}
