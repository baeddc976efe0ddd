ghost use Rattle.std.specs.Prelude.{◌≡◌, ◌∷◌, [], IfOk};
ghost use Rattle.pw_net.specs.Rules.{becomes, says, silence, told, told_each};

use crate::message::{Net, NetId, NetWord};
use crate::standing::TransactionState;
use pw_base::memory::Memory;
use std::alloc::Global;
use std::marker::Model;

/// What a member answers: its new standing, where it changes, and the messages to send.
#[derive(Debug, Drop)]
pub struct Reply {
    /// The new standing, none where it stays.
    pub turns: Option<TransactionState>,
    /// What is sent, in order.
    pub messages: Vec<Net>,
}

impl Model for Reply {
    ghost use Rattle.pw_net.specs.Rules.{Reply as SeenReply};

    ghost Value = { SeenReply };

    ghost view = { λ reply. record { turns = reply.turns; messages = reply.messages.items } };
}

/// Nothing changes and nothing is sent.
pub fn silence(alloc: Global) -> Reply
    ensures { result ≡ silence }
{
    Reply {
        turns: None,
        messages: Vec::new(alloc),
    }
}

/// The standing changes, and nothing is sent.
pub fn becomes(alloc: Global, standing: TransactionState) -> Reply
    ensures { result ≡ becomes standing }
{
    Reply {
        turns: Some(standing),
        messages: Vec::new(alloc),
    }
}

/// One message of this system about the transaction.
pub fn told(alloc: Global, own: u32, id: NetId, word: NetWord, to: u32) -> Result<Vec<Net>, Memory>
    ensures { IfOk result (λ messages. messages.items ≡ told own id word to ∷ []) }
{
    let mut messages = Vec::new(alloc);
    messages.push(Net {
        from: own,
        to,
        id,
        word,
    })?;
    Ok(messages)
}

/// Nothing changes, and one message is sent.
pub fn says(alloc: Global, own: u32, id: NetId, word: NetWord, to: u32) -> Result<Reply, Memory>
    ensures { IfOk result (λ reply. reply ≡ says own id word to) }
{
    Ok(Reply {
        turns: None,
        messages: told(alloc, own, id, word, to)?,
    })
}

/// The same word to each of these systems, in order.
pub fn told_each(
    alloc: Global,
    own: u32,
    id: NetId,
    word: NetWord,
    others: &[u32],
) -> Result<Vec<Net>, Memory>
    ensures { IfOk result (λ messages. messages.items ≡ told_each own id word others.now) }
{
    let mut messages = Vec::new(alloc);
    for to in others {
        messages.push(Net {
            from: own,
            to: *to,
            id,
            word,
        })?;
    }
    Ok(messages)
}
