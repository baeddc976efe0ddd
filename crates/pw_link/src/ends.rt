ghost use Rattle.std.specs.Prelude.{◌≡◌, ◌+◌, Some, IfOk};
ghost use Rattle.pw_link.specs.Lanes.{primary_lane, backup_lane, IsOn, sent_count, taken_count, message_number, message_of};

use crate::rule::{InOrder, PassSplit, Sends, Takes};
use crate::types::{BackupEnd, PrimaryEnd, Receipt, Sender};
use crossbeam_channel::bounded_with;
use pw_base::memory::Memory;
use std::alloc::Global;
use std::sync::Wait;

/// A lane on which nothing was sent.
pub fn lane<M: Send + Drop>(alloc: Global) -> Result<(PrimaryEnd<M>, BackupEnd<M>), Memory>
    ensures lane { IfOk result (λ ends. backup_lane ends.1 ≡ primary_lane ends.0) }
    ensures new { IfOk result (λ ends. (sent_count ends.0 ≡ 0) × (taken_count ends.1 ≡ 0)) }
{
    let (sender, receiver, mut pass) = bounded_with(alloc, 1)?;
    let other = sender.try_clone()?;
    let theirs = other.another::<PassSplit>(&mut pass);
    let primary = PrimaryEnd {
        sender,
        pass,
        sent: 0,
    };
    let backup = BackupEnd {
        sender: other,
        receiver,
        pass: theirs,
        taken: 0,
    };
    Ok((primary, backup))
}

impl<M: Send + Drop> PrimaryEnd<M> {
    /// Sends a message, and gives its receipt. It never refuses: a message that the channel does not take is carried by the
    /// receipt, and contracts see it there in both cases. It takes no memory. After 2^64 - 1 messages it waits for ever.
    pub fn send<R: Wait>(&mut self, rt: &R, message: M) -> Receipt<M>
        ensures lane { (primary_lane self.new ≡ primary_lane self.old) × IsOn result (primary_lane self.old) }
        ensures number { (message_number result ≡ sent_count self.old) × (sent_count self.new ≡ sent_count self.old + 1) }
        ensures message { message_of result ≡ Some message }
    {
        if self.sent == u64::MAX {
            for _ in rt.forever() {}
            unreachable!()
        }
        let number = self.sent;
        self.sent += 1;
        let place = match self
            .sender
            .try_send_as::<Sends, R>(rt, &mut self.pass, message)
        {
            Ok(()) => Ok(self.sender.another::<PassSplit>(&mut self.pass)),
            Err(refused) => Err(refused.into_inner()),
        };
        Receipt { number, place }
    }
}

impl<M: Send + Drop> BackupEnd<M> {
    /// The message of a receipt, which is the next of its lane. It takes no memory.
    pub fn take<R: Wait>(&mut self, rt: &R, receipt: Receipt<M>) -> M
        requires lane { IsOn receipt (backup_lane self.old) }
        requires next { message_number receipt ≡ taken_count self.old }
        ensures lane { backup_lane self.new ≡ backup_lane self.old }
        ensures number { taken_count self.new ≡ taken_count self.old + 1 }
        ensures message { message_of receipt ≡ Some result }
    {
        let Receipt { place, .. } = receipt;
        self.taken += 1;
        let pass = match place {
            Ok(pass) => pass,
            Err(message) => return message,
        };
        self.sender.absorb::<PassSplit>(&mut self.pass, pass);
        match self.receiver.try_recv_as::<Takes, R>(rt, &mut self.pass) {
            Ok(message) => message,
            Err(_) => unreachable!(),
        }
    }
}
