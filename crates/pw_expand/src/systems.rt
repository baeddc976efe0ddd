ghost use Rattle.std.specs.Prelude.{◌≡◌, ◌<◌, ◌≤◌, ◌++◌, [], IfOk, OnOk};
ghost use Rattle.pw_net.specs.World.{effect, done, delivered, message_at};
ghost use Rattle.pw_net.specs.Member as net;
ghost use Rattle.pw_expand.specs.Events.{net_event};
ghost use Rattle.pw_expand.specs.Systems.{KeepsOthers, HasBegun, member_in, world_of, outcome_of};

use crate::event::{ScheduleCall, ScheduleEvent};
use pw_base::memory::Memory;
use pw_net::member::Member;
use pw_net::message::Net;
use std::alloc::Global;
use std::collections::BTreeMap;

/// The net world that events make: the member of each system that has done something, and all
/// messages ever sent, in order. An `Err` of a call says nothing of what is left.
#[derive(Debug, Drop)]
pub struct Systems {
    alloc: Global,
    pub members: BTreeMap<u32, Member>,
    pub sent: Vec<Net>,
}

/// Takes the member of a system out: a new one, where none is kept.
fn taken_out(
    alloc: Global,
    members: &mut BTreeMap<u32, Member>,
    system: u32,
) -> Result<Member, Memory>
    ensures member { IfOk result (λ member. member ≡ member_in members.old.entries system) }
    ensures others { KeepsOthers system members.old.entries members.new.entries }
{
    match members.remove(&system) {
        Some(member) => Ok(member),
        None => Member::new(alloc, system),
    }
}

/// Puts the member of a system in.
fn put_in(members: &mut BTreeMap<u32, Member>, system: u32, member: Member) -> Result<(), Memory>
    ensures member { OnOk result (member_in members.new.entries system ≡ member) }
    ensures others { OnOk result (KeepsOthers system members.old.entries members.new.entries) }
{
    members.insert(system, member)?;
    Ok(())
}

/// Calls a member. It gives the messages to send, in order.
fn respond(alloc: Global, member: &mut Member, call: &ScheduleCall) -> Result<Vec<Net>, Memory>
    requires { member.old.last < 4294967295 }
    ensures after { OnOk result (member.new ≡ (outcome_of call.now member.old).member) }
    ensures sent { IfOk result (λ messages. messages.items ≡ (outcome_of call.now member.old).messages) }
{
    match call {
        ScheduleCall::Start { others } => member.start(others.as_slice()),
        ScheduleCall::Refuse { id } => member.refuse(*id),
        ScheduleCall::Ask { id } => member.ask(*id),
        ScheduleCall::GiveUp { number } => member.give_up(*number),
        ScheduleCall::Restart => {
            member.restart();
            Ok(Vec::new(alloc))
        }
    }
}

impl Systems {
    /// No marks, and nothing sent. It takes no memory.
    pub fn new(alloc: Global) -> Systems
        ensures members { result.members.entries ≡ [] }
        ensures sent { result.sent.items ≡ [] }
    {
        Systems {
            alloc,
            members: BTreeMap::new(alloc),
            sent: Vec::new(alloc),
        }
    }

    /// Calls the member of a system, and sends its messages.
    fn call(&mut self, system: u32, call: &ScheduleCall) -> Result<(), Memory>
        requires { (member_in self.old.members.entries system).last < 4294967295 }
        ensures { OnOk result (world_of self.new.members.entries self.new.sent.items
            ≡ done (world_of self.old.members.entries self.old.sent.items) system
            (outcome_of call.now (member_in self.old.members.entries system))) }
    {
        let mut member = taken_out(self.alloc, &mut self.members, system)?;
        let messages = respond(self.alloc, &mut member, call)?;
        put_in(&mut self.members, system, member)?;
        self.sent.extend_from_slice(messages.as_slice())?;
        Ok(())
    }

    /// Hands a message to its receiver, and sends the answers.
    fn hand(&mut self, message: &Net) -> Result<(), Memory>
        ensures { OnOk result (world_of self.new.members.entries self.new.sent.items
            ≡ done (world_of self.old.members.entries self.old.sent.items) message.now.to
            (net.handle (member_in self.old.members.entries message.now.to) message.now)) }
    {
        let system = message.to;
        let mut member = taken_out(self.alloc, &mut self.members, system)?;
        let messages = member.handle(message)?;
        put_in(&mut self.members, system, member)?;
        self.sent.extend_from_slice(messages.as_slice())?;
        Ok(())
    }

    /// The k-th message sent, from 1; None exactly where it was not sent.
    fn message_at(&self, k: u32) -> Option<Net>
        ensures { result ≡ message_at self.now.sent.items k }
    {
        if k == 0 {
            return None;
        }
        self.sent.get(k as usize - 1).copied()
    }

    /// Delivers the k-th message sent. One that was not sent does nothing.
    fn deliver(&mut self, k: u32) -> Result<(), Memory>
        ensures { OnOk result (world_of self.new.members.entries self.new.sent.items
            ≡ delivered (world_of self.old.members.entries self.old.sent.items)
            (message_at self.old.sent.items k)) }
    {
        match self.message_at(k) {
            Some(message) => self.hand(&message),
            None => Ok(()),
        }
    }

    /// Does an event. No system is to have begun as many transactions as there are numbers.
    pub fn take(&mut self, event: &ScheduleEvent) -> Result<(), Memory>
        requires { HasBegun 4294967294 (world_of self.old.members.entries self.old.sent.items) }
        ensures { OnOk result (world_of self.new.members.entries self.new.sent.items
            ≡ effect (world_of self.old.members.entries self.old.sent.items) (net_event event.now)) }
    {
        match event {
            ScheduleEvent::Deliver { k } => self.deliver(*k),
            ScheduleEvent::Call { system, call } => self.call(*system, call),
        }
    }
}
