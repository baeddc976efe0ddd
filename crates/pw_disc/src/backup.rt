ghost use Rattle.std.specs.Prelude.{◌≡◌, IfOk, OnErr};
ghost use Rattle.pw_disc.specs.Calls.{IsMessageFor, Makes};
ghost use Rattle.pw_tmf.specs.Tmf.{told_of};
ghost use Rattle.pw_disc.specs.Format.{IsMessageOf};
ghost use Rattle.pw_disc.specs.declared.call.DiscCall.{DiscCall};

use crate::decode::decode_call;
use crate::outcome::{DiscOutcome, make};
use pw_base::memory::Memory;
use pw_image::fault::BytesFault;
use pw_tmf::tmf::Tmf;
use std::alloc::Global;
use std::marker::Model;

/// The backup of a disc pair: a disc of its own, made by a copy and by the primary's messages alone.
#[derive(Debug, Drop)]
pub struct DiscBackup {
    tmf: Tmf,
}

impl Model for DiscBackup {
    ghost use Rattle.pw_tmf.specs.Tmf.{TmfState};

    ghost Value = { TmfState };

    ghost view = { λ backup. backup.tmf };
}

impl DiscBackup {
    /// A backup with a copy of what the primary keeps.
    pub fn raise(alloc: Global, primary: &Tmf) -> Result<DiscBackup, Memory>
        ensures { IfOk result (λ backup. backup ≡ primary.now) }
    {
        Ok(DiscBackup {
            tmf: primary.copy(alloc)?,
        })
    }

    /// Makes the call of a message. An `Err` leaves all that is told.
    pub fn receive(&mut self, alloc: Global, message: &[u8]) -> Result<DiscOutcome, Memory>
        requires { IsMessageFor (told_of self.old) message.now }
        ensures ok { IfOk result (λ outcome. (call : DiscCall) → IsMessageOf message.now call
            → Makes outcome (told_of self.old) call (told_of self.new)) }
        ensures err { OnErr result (told_of self.new ≡ told_of self.old) }
    {
        match decode_call(alloc, message) {
            Ok(call) => make(&mut self.tmf, call),
            Err(BytesFault::Memory) => Err(Memory),
            Err(BytesFault::Bad) => unreachable!(),
        }
    }

    /// The backup takes over: the disc that it keeps.
    pub fn takeover(self) -> Tmf
        ensures { result ≡ self }
    {
        let DiscBackup { tmf } = self;
        tmf
    }
}
