ghost use Rattle.std.specs.Prelude.{◌≡◌, ◌<◌, map, IfOk, OnOk, OnErr, Some};
ghost use Rattle.std.specs.Option.{option_copied};

use crate::ballot::Ballot;
use crate::message::{Mark, Net, NetId, NetWord};
use crate::reply::{Reply, told_each};
use crate::rules::{on_end, on_refuse, on_wait, on_word};
use crate::standing::TransactionState;
use pw_base::memory::Memory;
use std::alloc::Global;
use std::collections::BTreeMap;
use std::marker::Model;

/// One system's part in transactions over several systems. Contracts see its system, the last
/// number that it began, and how it stands to each transaction, by home and number. Each call
/// answers the messages to send, in order, or `Memory`, which leaves the member as it was. The
/// rules stand in docs/design/SYSTEMS.md.
#[derive(Debug, Drop)]
pub struct Member {
    alloc: Global,
    system: u32,
    last: u32,
    /// What was the last number at the last restart: votes that were collected up to it are lost.
    lost: u32,
    standings: BTreeMap<NetId, TransactionState>,
}

impl Model for Member {
    ghost use Rattle.pw_net.specs.Member.{Member as SeenMember};
    ghost use Rattle.pw_net.specs.Kept.{standings_now, AreBegun};
    ghost use Rattle.std.specs.Prelude.{◌≤◌};

    ghost Value = { SeenMember };

    ghost view = { λ member. record {
      system = member.system;
      last = member.last;
      standings = standings_now member.lost member.standings.entries;
    } };

    ghost invariant = { λ member.
        (member.lost ≤ member.last) × AreBegun member.last member.standings.entries };
}

impl Member {
    ghost use Rattle.pw_net.specs.Kept.{OpensNone};
    ghost use Rattle.pw_net.specs.declared.standing.TransactionState.TheVariants.{Aborted};
    ghost use Rattle.pw_net.specs.Member.{first_member, standing_of, mark_in, mark_of, turned, replied, own_id, start, heard, handle, refuse, ask, give_up, restart};

    /// A member for the system of this number, from 1, without marks.
    pub fn new(alloc: Global, number: u32) -> Result<Member, Memory>
        ensures { IfOk result (λ member. member ≡ first_member number) }
    {
        Ok(Member {
            alloc,
            system: number,
            last: 0,
            lost: 0,
            standings: BTreeMap::new(alloc),
        })
    }

    /// How the member stands to a transaction, None exactly where that has no mark.
    fn standing<'a>(
        &'a self,
        id: NetId,
        aborted: &'a TransactionState,
    ) -> Option<&'a TransactionState>
        requires { aborted.now ≡ Aborted }
        ensures { option_copied result ≡ standing_of self.now id }
    {
        match self.standings.get(&id) {
            Some(standing) => Some(standing.since(aborted, self.lost, id.number)),
            None => None,
        }
    }

    /// The mark of a transaction, None exactly where it has none.
    pub fn mark(&self, id: NetId) -> Option<Mark>
        ensures { result ≡ mark_of (standing_of self.now id) }
    {
        match self.standing(id, &TransactionState::Aborted) {
            Some(standing) => Some(standing.mark()),
            None => None,
        }
    }

    /// The marks of all transactions that have one, by home and number.
    pub fn marks(&self) -> Result<Vec<(NetId, Mark)>, Memory>
        ensures { IfOk result (λ marks. marks.items
            ≡ map (λ entry. (entry.0, mark_in entry.1)) self.now.standings) }
    {
        let (aborted, lost) = (TransactionState::Aborted, self.lost);
        let marks = self
            .standings
            .iter()
            .map(|(id, standing)| (*id, standing.since(&aborted, lost, id.number).mark()))
            .collect(self.alloc)?;
        Ok(marks)
    }

    /// Puts the new standing of a transaction, which is to collect votes only where it did. An
    /// `Err` leaves the member as it was.
    fn turn(&mut self, id: NetId, standing: TransactionState) -> Result<(), Memory>
        requires { OpensNone (standing_of self.old id) (Some standing) }
        ensures ok { OnOk result (self.new ≡ turned self.old id (Some standing)) }
        ensures err { OnErr result (self.new ≡ self.old) }
    {
        self.standings.insert(id, standing)?;
        Ok(())
    }

    /// Does what a reply says, and gives its messages. An `Err` leaves the member as it was.
    fn take(&mut self, id: NetId, reply: Reply) -> Result<Vec<Net>, Memory>
        requires { OpensNone (standing_of self.old id) reply.turns }
        ensures after { OnOk result (self.new ≡ (replied self.old id reply).member) }
        ensures sent { IfOk result (λ messages. messages.items ≡ reply.messages) }
        ensures err { OnErr result (self.new ≡ self.old) }
    {
        let Reply { turns, messages } = reply;
        if let Some(standing) = turns {
            self.turn(id, standing)?;
        }
        Ok(messages)
    }

    /// Begins a transaction with these other systems: takes the next number, from 1, and sends
    /// Prepare to each. They are to be different ones without itself, 1 to 7.
    pub fn start(&mut self, others: &[u32]) -> Result<Vec<Net>, Memory>
        requires { self.old.last < 4294967295 }
        ensures after { OnOk result (self.new ≡ (start self.old others.now).member) }
        ensures sent { IfOk result (λ messages. messages.items ≡ (start self.old others.now).messages) }
        ensures err { OnErr result (self.new ≡ self.old) }
    {
        let id = NetId {
            home: self.system,
            number: self.last + 1,
        };
        let messages = told_each(self.alloc, self.system, id, NetWord::Prepare, others)?;
        let ballot = Ballot::new(others.to_vec(self.alloc)?, others.to_vec(self.alloc)?);
        self.standings
            .insert(id, TransactionState::Collecting(ballot))?;
        self.last += 1;
        Ok(messages)
    }

    /// Takes a word about the transaction from a system.
    fn hear(&mut self, id: NetId, system: u32, word: NetWord) -> Result<Vec<Net>, Memory>
        ensures after { OnOk result (self.new ≡ (heard self.old id system word).member) }
        ensures sent { IfOk result (λ messages. messages.items ≡ (heard self.old id system word).messages) }
        ensures err { OnErr result (self.new ≡ self.old) }
    {
        let reply = on_word(
            self.alloc,
            self.system,
            id,
            system,
            word,
            self.standing(id, &TransactionState::Aborted),
        )?;
        self.take(id, reply)
    }

    /// Takes a message that is for this member.
    pub fn handle(&mut self, message: &Net) -> Result<Vec<Net>, Memory>
        ensures after { OnOk result (self.new ≡ (handle self.old message.now).member) }
        ensures sent { IfOk result (λ messages. messages.items ≡ (handle self.old message.now).messages) }
        ensures err { OnErr result (self.new ≡ self.old) }
    {
        self.hear(message.id, message.from, message.word)
    }

    /// Gives no vote to a transaction of another home that has no mark.
    pub fn refuse(&mut self, id: NetId) -> Result<Vec<Net>, Memory>
        ensures after { OnOk result (self.new ≡ (refuse self.old id).member) }
        ensures sent { IfOk result (λ messages. messages.items ≡ (refuse self.old id).messages) }
        ensures err { OnErr result (self.new ≡ self.old) }
    {
        let reply = on_refuse(
            self.alloc,
            self.system,
            id,
            self.standing(id, &TransactionState::Aborted),
        );
        self.take(id, reply)
    }

    /// Asks the home how a prepared transaction ended.
    pub fn ask(&mut self, id: NetId) -> Result<Vec<Net>, Memory>
        ensures after { OnOk result (self.new ≡ (ask self.old id).member) }
        ensures sent { IfOk result (λ messages. messages.items ≡ (ask self.old id).messages) }
        ensures err { OnErr result (self.new ≡ self.old) }
    {
        let reply = on_wait(
            self.alloc,
            self.system,
            id,
            self.standing(id, &TransactionState::Aborted),
        )?;
        self.take(id, reply)
    }

    /// Waits no more for the votes of the transaction of its own with this number.
    pub fn give_up(&mut self, number: u32) -> Result<Vec<Net>, Memory>
        ensures after { OnOk result (self.new ≡ (give_up self.old number).member) }
        ensures sent { IfOk result (λ messages. messages.items ≡ (give_up self.old number).messages) }
        ensures err { OnErr result (self.new ≡ self.old) }
    {
        let id = NetId {
            home: self.system,
            number,
        };
        let reply = on_end(
            self.alloc,
            self.system,
            id,
            self.standing(id, &TransactionState::Aborted),
        )?;
        self.take(id, reply)
    }

    /// A restart: each transaction whose votes were collected is aborted. It takes no memory, and
    /// the same time however many marks there are.
    pub fn restart(&mut self)
        ensures { self.new ≡ restart self.old }
    {
        self.lost = self.last;
    }
}
