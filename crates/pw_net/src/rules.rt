ghost use Rattle.std.specs.Prelude.{◌≡◌, IfOk, Some};
ghost use Rattle.std.specs.Option.{option_copied};
ghost use Rattle.pw_net.specs.Ballot.{still_missing};
ghost use Rattle.pw_net.specs.Rules.{vote_counted, on_abort, on_ask, on_commit, on_end, on_prepare, on_refuse, on_wait, on_word, on_yes};
ghost use Rattle.pw_net.specs.declared.standing.TransactionState.TheVariants.{Collecting};

use crate::ballot::Ballot;
use crate::message::{NetId, NetWord};
use crate::reply::{Reply, becomes, says, silence, told, told_each};
use crate::standing::TransactionState;
use pw_base::memory::Memory;
use std::alloc::Global;

/// Votes, and stays with its vote.
fn on_prepare(
    alloc: Global,
    own: u32,
    id: NetId,
    standing: Option<&TransactionState>,
) -> Result<Reply, Memory>
    ensures { IfOk result (λ reply. reply ≡ on_prepare own id (option_copied standing.entry)) }
{
    match standing {
        None => Ok(Reply {
            turns: Some(TransactionState::Prepared),
            messages: told(alloc, own, id, NetWord::Yes, id.home)?,
        }),
        Some(TransactionState::Collecting(_)) => Ok(silence(alloc)),
        Some(TransactionState::Prepared) => says(alloc, own, id, NetWord::Yes, id.home),
        Some(TransactionState::Committed) => Ok(silence(alloc)),
        Some(TransactionState::Aborted) => says(alloc, own, id, NetWord::No, id.home),
    }
}

/// Counts the vote of a system; the last one commits.
fn counted(
    alloc: Global,
    own: u32,
    id: NetId,
    system: u32,
    ballot: &Ballot,
) -> Result<Reply, Memory>
    ensures { IfOk result (λ reply. reply ≡ vote_counted own id ballot.now.others (still_missing system ballot.now)) }
{
    let left = ballot.still_missing(alloc, system)?;
    if left.is_empty() {
        return Ok(Reply {
            turns: Some(TransactionState::Committed),
            messages: told_each(alloc, own, id, NetWord::Commit, ballot.others())?,
        });
    }
    let others = ballot.others().to_vec(alloc)?;
    Ok(becomes(
        alloc,
        TransactionState::Collecting(Ballot::new(others, left)),
    ))
}

/// Counts the vote, or tells how the transaction ended.
fn on_yes(
    alloc: Global,
    own: u32,
    id: NetId,
    system: u32,
    standing: Option<&TransactionState>,
) -> Result<Reply, Memory>
    ensures { IfOk result (λ reply. reply ≡ on_yes own id system (option_copied standing.entry)) }
{
    match standing {
        Some(TransactionState::Collecting(ballot)) => counted(alloc, own, id, system, ballot),
        Some(TransactionState::Committed) => says(alloc, own, id, NetWord::Commit, system),
        Some(TransactionState::Aborted) => says(alloc, own, id, NetWord::Abort, system),
        Some(TransactionState::Prepared) | None => Ok(silence(alloc)),
    }
}

/// The home aborts while it collects votes.
pub fn on_end(
    alloc: Global,
    own: u32,
    id: NetId,
    standing: Option<&TransactionState>,
) -> Result<Reply, Memory>
    ensures { IfOk result (λ reply. reply ≡ on_end own id (option_copied standing.entry)) }
{
    match standing {
        Some(TransactionState::Collecting(ballot)) => Ok(Reply {
            turns: Some(TransactionState::Aborted),
            messages: told_each(alloc, own, id, NetWord::Abort, ballot.others())?,
        }),
        Some(TransactionState::Prepared)
        | Some(TransactionState::Committed)
        | Some(TransactionState::Aborted)
        | None => { Ok(silence(alloc)) }
    }
}

/// What is prepared is committed.
fn on_commit(alloc: Global, standing: Option<&TransactionState>) -> Reply
    ensures { result ≡ on_commit (option_copied standing.entry) }
{
    match standing {
        Some(TransactionState::Prepared) => becomes(alloc, TransactionState::Committed),
        Some(TransactionState::Collecting(_))
        | Some(TransactionState::Committed)
        | Some(TransactionState::Aborted)
        | None => { silence(alloc) }
    }
}

/// What is prepared or has no mark is aborted.
fn on_abort(alloc: Global, standing: Option<&TransactionState>) -> Reply
    ensures { result ≡ on_abort (option_copied standing.entry) }
{
    match standing {
        Some(TransactionState::Prepared) | None => becomes(alloc, TransactionState::Aborted),
        Some(TransactionState::Collecting(_))
        | Some(TransactionState::Committed)
        | Some(TransactionState::Aborted) => silence(alloc),
    }
}

/// Tells how the transaction ended.
fn on_ask(
    alloc: Global,
    own: u32,
    id: NetId,
    system: u32,
    standing: Option<&TransactionState>,
) -> Result<Reply, Memory>
    ensures { IfOk result (λ reply. reply ≡ on_ask own id system (option_copied standing.entry)) }
{
    match standing {
        Some(TransactionState::Committed) => says(alloc, own, id, NetWord::Commit, system),
        Some(TransactionState::Aborted) => says(alloc, own, id, NetWord::Abort, system),
        Some(TransactionState::Collecting(_)) | Some(TransactionState::Prepared) | None => Ok(
            silence(alloc),
        ),
    }
}

/// What a message with this word about the transaction, from a system, comes to. Yes, No and Ask
/// are for the transaction's home.
pub fn on_word(
    alloc: Global,
    own: u32,
    id: NetId,
    system: u32,
    word: NetWord,
    standing: Option<&TransactionState>,
) -> Result<Reply, Memory>
    ensures { IfOk result (λ reply. reply ≡ on_word own id system word (option_copied standing.entry)) }
{
    match word {
        NetWord::Prepare => on_prepare(alloc, own, id, standing),
        NetWord::Commit => Ok(on_commit(alloc, standing)),
        NetWord::Abort => Ok(on_abort(alloc, standing)),
        NetWord::Yes => {
            if own == id.home {
                on_yes(alloc, own, id, system, standing)
            } else {
                Ok(silence(alloc))
            }
        }
        NetWord::No => {
            if own == id.home {
                on_end(alloc, own, id, standing)
            } else {
                Ok(silence(alloc))
            }
        }
        NetWord::Ask => {
            if own == id.home {
                on_ask(alloc, own, id, system, standing)
            } else {
                Ok(silence(alloc))
            }
        }
    }
}

/// What has no mark is aborted, but not at its home.
pub fn on_refuse(alloc: Global, own: u32, id: NetId, standing: Option<&TransactionState>) -> Reply
    ensures { result ≡ on_refuse own id (option_copied standing.entry) }
{
    match standing {
        None => {
            if own == id.home {
                silence(alloc)
            } else {
                becomes(alloc, TransactionState::Aborted)
            }
        }
        Some(_) => silence(alloc),
    }
}

/// What is prepared asks its home.
pub fn on_wait(
    alloc: Global,
    own: u32,
    id: NetId,
    standing: Option<&TransactionState>,
) -> Result<Reply, Memory>
    ensures { IfOk result (λ reply. reply ≡ on_wait own id (option_copied standing.entry)) }
{
    match standing {
        Some(TransactionState::Prepared) => says(alloc, own, id, NetWord::Ask, id.home),
        Some(TransactionState::Collecting(_))
        | Some(TransactionState::Committed)
        | Some(TransactionState::Aborted)
        | None => { Ok(silence(alloc)) }
    }
}
