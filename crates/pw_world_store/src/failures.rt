//! Failures of pairs, takeovers and endings.

ghost use Rattle.std.specs.Prelude.{◌≡◌, ◌<◌, All, IfErr, IfOk, OnErr, OnOk, length, map};
ghost use Rattle.pw_world_store.specs.Calls.{members_in};
ghost use Rattle.pw_world_store.specs.Each.{lost};
ghost use Rattle.pw_world_store.specs.Keeps.{IsChanged, IsRefused, kept_in};
ghost use Rattle.pw_world_store.specs.declared.pieces.TerminalLoss.TheVariants as Loss;
ghost use Rattle.pw_world_state.specs.Changes.{kept_end, kept_fail_tcp, kept_takeover, leave_at};
ghost use Rattle.pw_world_state.specs.Entered.{tcp_of};
ghost use Rattle.pw_pair.specs.declared.mode.Mode.TheVariants as Mode;

use crate::each::go_on_each;
use crate::keep::Keep;
use crate::pieces::{TerminalLoss, is_left, loss_in};
use pw_base::memory::Memory;
use pw_event::event::Ending;
use pw_tmf::answer::DiscFault;
use pw_tmf::disc::Disc;

impl<D: Disc> Keep<D> {
    /// The terminals of a pair lose their requests and their paths.
    fn lose_programs(&mut self, tcp: u32) -> Result<(), DiscFault>
        requires known { tcp < length self.old.system.tcps }
        ensures ok { OnOk result (IsChanged D.told (lost TerminalLoss.Paths (members_in (kept_in D.told self.old) tcp)) self.old self.new) }
        ensures err { IfErr result (λ fault. IsRefused D.told fault self.old self.new) }
    {
        let terminals = self.members(tcp)?;
        self.cancel(&terminals);
        self.lose_paths(&terminals);
        Ok(())
    }

    /// The terminals of a pair lose these and their open units.
    fn lose_units(&mut self, tcp: u32) -> Result<(), DiscFault>
        requires known { tcp < length self.old.system.tcps }
        ensures ok { OnOk result (IsChanged D.told (lost TerminalLoss.Units (members_in (kept_in D.told self.old) tcp)) self.old self.new) }
        ensures err { IfErr result (λ fault. IsRefused D.told fault self.old self.new) }
    {
        let terminals = self.members(tcp)?;
        self.leave(&terminals)?;
        self.lose_paths(&terminals);
        Ok(())
    }

    /// The terminals of a pair lose this.
    fn lose(&mut self, tcp: u32, loss: TerminalLoss) -> Result<(), DiscFault>
        requires known { tcp < length self.old.system.tcps }
        ensures ok { OnOk result (IsChanged D.told (lost loss (members_in (kept_in D.told self.old) tcp)) self.old self.new) }
        ensures err { IfErr result (λ fault. IsRefused D.told fault self.old self.new) }
    {
        match loss {
            TerminalLoss::Nothing => Ok(()),
            TerminalLoss::Paths => self.lose_programs(tcp),
            TerminalLoss::Units => self.lose_units(tcp),
        }
    }

    /// FAIL TCP: a member of a pair fails. Where no member is left, the open units of its terminals are left and their
    /// paths are gone; where a primary with a whole backup fails, their requests are cancelled and their paths are gone.
    pub fn fail_tcp(&mut self, tcp: u32, primary: bool) -> Result<(), DiscFault>
        requires known { tcp < length self.old.system.tcps }
        ensures ok { OnOk result (IsChanged D.told (kept_fail_tcp tcp primary (members_in (kept_in D.told self.old) tcp)) self.old self.new) }
        ensures err { IfErr result (λ fault. IsRefused D.told fault self.old self.new) }
    {
        let loss = loss_in(self.pair(tcp).mode(), primary);
        self.lose(tcp, loss)?;
        self.fail_member(tcp, primary);
        Ok(())
    }

    /// TMF's last ended unit of each of these terminals, by its number, 0 where none has ended.
    fn last_ended(&self, terminals: &[u32]) -> Result<Vec<(u32, u32)>, Memory>
        requires { All (λ t. t < length self.now.system.terminals) terminals.now }
        ensures { IfOk result (λ ended. ended.items
            ≡ map (λ t. (t, ((kept_in D.told self.now).disc.ended t).number)) terminals.now) }
    {
        let mut ended = Vec::new(self.alloc);
        for terminal in terminals {
            ended.push((*terminal, self.number_ended(*terminal)))?;
        }
        Ok(ended)
    }

    /// The number of TMF's last ended unit of a terminal, 0 where none has ended.
    fn number_ended(&self, terminal: u32) -> u32
        requires { terminal < length self.now.system.terminals }
        ensures { result ≡ ((kept_in D.told self.now).disc.ended terminal).number }
    {
        match self.ended(terminal) {
            Some(ended) => ended.number,
            None => 0,
        }
    }

    /// TAKEOVER: the live terminals of a pair go on with the contexts whose images its backup held. They are made from
    /// these images and TMF's last ended units alone, and the backup is used up. An `Err` leaves all as it was.
    pub fn takeover(&mut self, tcp: u32) -> Result<(), Memory>
        requires known { tcp < length self.old.system.tcps }
        requires down { ((kept_in D.told self.old).pairs tcp).mode ≡ Mode.Down }
        ensures ok { OnOk result (IsChanged D.told (kept_takeover tcp (members_in (kept_in D.told self.old) tcp)) self.old self.new) }
        ensures err { OnErr result (self.new ≡ self.old) }
    {
        let terminals = self.members(tcp)?;
        let ended = self.last_ended(&terminals)?;
        let backup = self.pairs[tcp as usize].take_backup();
        match backup.takeover(self.alloc, &ended) {
            Ok(resumed) => {
                go_on_each(&mut self.seats, tcp, resumed);
                Ok(())
            }
            Err((backup, memory)) => {
                self.pairs[tcp as usize].put_back(backup);
                Err(memory)
            }
        }
    }

    /// The open unit of a terminal is left at this ending, but at STOPPED and LOST.
    fn leave_at(&mut self, terminal: u32, ending: Ending) -> Result<(), DiscFault>
        requires known { terminal < length self.old.system.terminals }
        ensures ok { OnOk result (IsChanged D.told (leave_at terminal ending) self.old self.new) }
        ensures err { IfErr result (λ fault. IsRefused D.told fault self.old self.new) }
    {
        if !is_left(&ending) {
            return Ok(());
        }
        self.leave(&[terminal])?;
        Ok(())
    }

    /// END: a terminal has its ending, its open unit is left but at STOPPED and LOST, and its pair drops it.
    pub fn end(&mut self, terminal: u32, ending: Ending) -> Result<(), DiscFault>
        requires known { terminal < length self.old.system.terminals }
        ensures ok { OnOk result (IsChanged D.told (kept_end (tcp_of self.old.system terminal) terminal ending) self.old self.new) }
        ensures err { IfErr result (λ fault. IsRefused D.told fault self.old self.new) }
    {
        self.leave_at(terminal, ending)?;
        self.close(terminal, ending);
        let tcp = self.pair_of(terminal);
        self.drop_terminal(tcp, terminal);
        Ok(())
    }
}
