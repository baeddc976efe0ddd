use pw_base::list::List;
use pw_net::message::NetId;

/// The word that a line of an event begins with.
#[derive(Clone, Copy, Debug, PartialEq, Eq)]
pub enum ScheduleKeyword {
    Start,
    Deliver,
    Refuse,
    Ask,
    GiveUp,
    Restart,
}

/// What happens at one system. Systems and numbers count from 1.
#[derive(Debug, Drop)]
pub enum ScheduleCall {
    /// It begins a transaction with the others.
    Start { others: List<u32> },
    /// It will give no vote.
    Refuse { id: NetId },
    /// It asks how a transaction ended.
    Ask { id: NetId },
    /// It waits no more for the votes of its transaction of this number.
    GiveUp { number: u32 },
    Restart,
}

/// An event of a schedule.
#[derive(Debug, Drop)]
pub enum ScheduleEvent {
    /// The k-th message sent, from 1, comes to its receiver.
    Deliver { k: u32 },
    /// Something happens at a system.
    Call { system: u32, call: ScheduleCall },
}
