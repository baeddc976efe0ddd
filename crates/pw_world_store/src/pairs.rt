//! What entries do to pairs alone.

ghost use Rattle.std.specs.Prelude.{◌≡◌, ◌<◌, ◌↔◌, IsTrue, OnErr, OnOk, Some, false, length, true};
ghost use Rattle.pw_world_store.specs.Keeps.{IsChanged, kept_in};
ghost use Rattle.pw_world_state.specs.Changes.{at_pair, kept_applied, kept_check, kept_raise};
ghost use Rattle.pw_pair.specs.Bodies.{is_image};
ghost use Rattle.pw_pair.specs.Called.{member_fails};
ghost use Rattle.pw_pair.specs.Pairs.{after_drop, changed_at, passes, seat_of};
ghost use Rattle.pw_pair.specs.Rooms.{MaySend};
ghost use Rattle.pw_pair.specs.Seats.{built, is_built, is_waiting};
ghost use Rattle.pw_pair.specs.Tasks.{waiting_task};
ghost use Rattle.pw_pair.specs.declared.mode.Mode.TheVariants as Mode;

use crate::keep::Keep;
use crate::pieces::fail;
use pw_base::memory::Memory;
use pw_pair::link::LinkDone;
use pw_pair::message::CheckMessage;
use pw_tmf::disc::Disc;

impl<D: Disc> Keep<D> {
    /// CHECK: the message goes to the backup of the pair. An `Err` leaves all as it was.
    pub fn check(&mut self, tcp: u32, message: CheckMessage) -> Result<(), Memory>
        requires known { tcp < length self.old.system.tcps }
        requires kind { MaySend ((kept_in D.told self.old).pairs tcp).mode message.kind }
        requires image { is_image message.image ≡ true }
        ensures ok { OnOk result (IsChanged D.told (kept_check tcp message) self.old self.new) }
        ensures err { OnErr result (self.new ≡ self.old) }
    {
        self.pairs[tcp as usize].send(message)?;
        Ok(())
    }

    /// RAISE: the pair has a new backup, which holds nothing. An `Err` leaves all as it was.
    pub fn raise(&mut self, tcp: u32) -> Result<(), Memory>
        requires known { tcp < length self.old.system.tcps }
        requires alone { ((kept_in D.told self.old).pairs tcp).mode ≡ Mode.Alone }
        ensures ok { OnOk result (IsChanged D.told (kept_raise tcp) self.old self.new) }
        ensures err { OnErr result (self.new ≡ self.old) }
    {
        self.pairs[tcp as usize].raise()?;
        Ok(())
    }

    /// No entry: the terminal's message in flight is built. An `Err` leaves all as it was.
    pub fn build_here(&mut self, tcp: u32, terminal: u32) -> Result<(), Memory>
        requires known { tcp < length self.old.system.tcps }
        requires waits { passes is_waiting (seat_of terminal ((kept_in D.told self.old).pairs tcp)) ≡ true }
        ensures ok { OnOk result (IsChanged D.told (at_pair tcp (changed_at terminal built)) self.old self.new) }
        ensures err { OnErr result (self.new ≡ self.old) }
    {
        self.pairs[tcp as usize].build_here(terminal)?;
        Ok(())
    }

    /// APPLIED: the terminal's message in flight, which is built, is taken in.
    pub fn applied(&mut self, tcp: u32, terminal: u32)
        requires known { tcp < length self.old.system.tcps }
        requires built { passes is_built (seat_of terminal ((kept_in D.told self.old).pairs tcp)) ≡ true }
        ensures { IsChanged D.told (kept_applied tcp terminal) self.old self.new }
    {
        self.pairs[tcp as usize].applied(terminal);
    }

    /// A terminal that has ended is dropped by its pair.
    pub fn drop_terminal(&mut self, tcp: u32, terminal: u32)
        requires known { tcp < length self.old.system.tcps }
        ensures { IsChanged D.told (at_pair tcp (after_drop terminal)) self.old self.new }
    {
        self.pairs[tcp as usize].drop_terminal(terminal);
    }

    /// A member of the pair fails, as far as the pair itself goes.
    pub fn fail_member(&mut self, tcp: u32, primary: bool)
        requires known { tcp < length self.old.system.tcps }
        ensures { IsChanged D.told (at_pair tcp (member_fails primary)) self.old self.new }
    {
        fail(&mut self.pairs[tcp as usize], primary);
    }

    /// No entry: files the image of a task that is done, and says whether it did.
    pub fn give_back(&mut self, tcp: u32, done: LinkDone) -> bool
        requires known { tcp < length self.old.system.tcps }
        ensures files { IsTrue result
            ↔ (waiting_task done.task.terminal ((kept_in D.told self.old).pairs tcp) ≡ Some done.task) }
        ensures filed { result ≡ true
            → IsChanged D.told (at_pair tcp (changed_at done.task.terminal built)) self.old self.new }
        ensures late { result ≡ false → self.new ≡ self.old }
    {
        self.pairs[tcp as usize].give_back(done)
    }
}
