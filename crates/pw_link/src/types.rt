ghost use Rattle.std.specs.Prelude.{◌≡◌, ◌<◌, ◌-◌, ◌^◌, true};
ghost use Rattle.crossbeam_channel.specs.Claims.{view, IsSeatAt};
ghost use Rattle.crossbeam_channel.specs.Ends.{sends_on, receives_on, ruled_capacity};
ghost use Rattle.std.specs.Option.{is_some};
ghost use Rattle.std.specs.Result.{ForOk};

use crate::rule::{InOrder, PassNote};
use crossbeam_channel::{Pass, RuledReceiver, RuledSender};
use std::alloc::Global;

pub(crate) type Sender<M> = RuledSender<M, PassNote<M>, InOrder, Global>;

/// The end of a lane that sends, and counts what it has sent.
#[derive(Drop)]
pub struct PrimaryEnd<M: Drop> {
    pub(crate) sender: Sender<M>,
    pub(crate) pass: Pass<M, PassNote<M>>,
    pub(crate) sent: u64,
    ghost seated: { IsSeatAt (sends_on sender) pass },
    ghost narrow: { ruled_capacity (sends_on sender) ≡ 1 },
    ghost knows: { is_some (view pass).took ≡ true },
}

/// The end of a lane that takes, and counts what it has taken. Only a sender splits and joins passes, so it has one for
/// its passes alone, by which it sends nothing.
#[derive(Drop)]
pub struct BackupEnd<M: Drop> {
    pub(crate) sender: Sender<M>,
    pub(crate) receiver: RuledReceiver<M, PassNote<M>, InOrder, Global>,
    pub(crate) pass: Pass<M, PassNote<M>>,
    pub(crate) taken: u64,
    ghost joined: { receives_on receiver ≡ sends_on sender },
    ghost seated: { IsSeatAt (sends_on sender) pass },
    ghost knows: { is_some (view pass).got ≡ true },
}

/// What `send` gives for a message: its number on the lane, from 0, and a pass that knows that the channel holds it, or the
/// message itself where the channel did not take it.
#[derive(Drop)]
pub struct Receipt<M: Drop> {
    pub(crate) number: u64,
    pub(crate) place: Result<Pass<M, PassNote<M>>, M>,
    ghost counted: { number < 2 ^ 64 - 1 },
    ghost waits: { ForOk place (λ pass. is_some (view pass).due ≡ true) },
}
