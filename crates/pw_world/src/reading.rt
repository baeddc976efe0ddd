//! What a world tells of itself. None of these calls changes anything.

ghost use Rattle.std.specs.Prelude.{◌≡◌, ◌↔◌, ◌<◌, ◌≤◌, IfOk, IsTrue, length};
ghost use Rattle.pw_code.specs.Limits.{most_log_lines};
ghost use Rattle.pw_code.specs.Valid.{IsValid};
ghost use Rattle.pw_pair.specs.Follows.{mode_as};
ghost use Rattle.pw_world.specs.States.{seen};
ghost use Rattle.pw_world_model.specs.OneSends.{BeginsOneSend};
ghost use Rattle.pw_world_model.specs.Seen.{finished, state_of, sys_of};
ghost use Rattle.pw_onecopy.specs.IsBehaviour.{IsBehaviour};
ghost use Rattle.pw_onecopy.specs.Path.{entries_on};
ghost use Rattle.pw_paired.specs.Shown.{refreshes};
ghost use Rattle.pw_paired.specs.Step.{IsRun};
ghost use Rattle.pw_paired.specs.Terminal.{path_of};
ghost use Rattle.pw_tmf.specs.Committed.{committed};

use crate::world::World;
use pw_base::bytes::Bytes;
use pw_base::memory::Memory;
use pw_code::system::System;
use pw_event::event::Event;
use pw_onecopy::refresh::Refresh;
use pw_pair::mode::Mode;
use pw_tmf::disc::Disc;
use pw_world_model::contexts::context_laws;
use pw_world_model::laws::book_laws;
use std::alloc::Global;

impl<D: Disc> World<D> {
    /// The system that the world was made of.
    pub fn system(&self) -> &System
        ensures system { result.now ≡ self.now.keep.system }
        ensures valid { IsValid result.now }
        ensures deck { IsBehaviour (sys_of (seen D.told self.now)) }
    {
        self.keep.system()
    }

    /// The log, which is a run.
    pub fn log(&self) -> &[Event]
        ensures log { result.now ≡ self.now.ledger.log }
        ensures run { IsRun (sys_of (seen D.told self.now)) self.now.ledger.log }
        ensures room { length self.now.ledger.log ≤ self.now.limit }
        ensures few { self.now.limit ≤ most_log_lines }
    {
        self.ledger.log()
    }

    /// Whether the entry at this place of the log, counted from 0, is the BEGIN of a unit that is one
    /// SEND.
    pub fn one_send(&self, place: usize) -> bool
        requires { place < length self.now.ledger.log }
        ensures { IsTrue result
            ↔ BeginsOneSend (sys_of (seen D.told self.now)) self.now.ledger.log place }
    {
        book_laws();
        self.ledger.one_sends()[place]
    }

    /// Whether the log is finished: no terminal is live.
    pub fn finished(&self) -> bool
        ensures { result ≡ finished (seen D.told self.now) }
    {
        book_laws();
        self.ledger.live() == 0
    }

    /// The refreshes that the log's entries made, in their order.
    pub fn screens(&self) -> &[Refresh]
        ensures { result.now ≡ refreshes (sys_of (seen D.told self.now)) self.now.ledger.log }
    {
        self.ledger.refreshes()
    }

    /// The committed records of a file, in the order of their keys.
    pub fn records(&self, alloc: Global, file: u32) -> Result<Vec<Bytes>, Memory>
        requires { file < length self.now.keep.system.files }
        ensures { IfOk result (λ records. records.items
            ≡ committed (D.told self.now.keep.disc) file) }
    {
        self.keep.records(alloc, file)
    }

    /// The mode of a pair. It takes no memory.
    pub fn mode(&self, tcp: u32) -> Mode
        requires { tcp < length self.now.keep.system.tcps }
        ensures { result ≡ mode_as ((state_of (seen D.told self.now)).modes tcp) }
    {
        self.keep.pair(tcp).mode()
    }

    /// How many entry lines are on the path of a terminal, 0 where the path is gone. It takes no
    /// memory.
    pub fn entries(&self, terminal: u32) -> u32
        requires { terminal < length self.now.keep.system.terminals }
        ensures { result ≡ entries_on (path_of (state_of (seen D.told self.now)) terminal) }
    {
        context_laws();
        match &self.keep.seat(terminal).context {
            Some(context) => context.entries,
            None => 0,
        }
    }

    /// The number of the last ended unit of a terminal, 0 where none has ended. It takes no memory.
    pub fn last_ended(&self, terminal: u32) -> u32
        requires { terminal < length self.now.keep.system.terminals }
        ensures { result ≡ ((state_of (seen D.told self.now)).ended terminal).number }
    {
        match self.keep.ended(terminal) {
            Some(ended) => ended.number,
            None => 0,
        }
    }
}
