//! What is asked of a deck that is not run.

ghost use Rattle.std.specs.Prelude.{◌≡◌, ◌≤◌, IfErr, IfOk, List, OnOk, ℕ};
ghost use Rattle.pathway.specs.Decks.{Checks, DefinesBy, ReplaysDeck, StatusCounts, status_after, status_at};
ghost use Rattle.pathway.specs.Statuses.{OfBytes};
ghost use Rattle.pw_base.specs.First.{Refuses};
ghost use Rattle.pw_input_output.specs.Inputs.{GivesUp};
ghost use Rattle.pw_deck.specs.Deck.{deck_of};
ghost use Rattle.pw_deck_runs.specs.Replays.{Verifies};
ghost use Rattle.pw_status.specs.Status.{IsStatusOf};

use crate::answers::{TOO_LONG, deck_ok, refused};
use pw_base::bytes::Bytes;
use pw_base::fault::{Fault, Refusal};
use pw_base::memory::Memory;
use pw_base::source::Source;
use pw_deck::deck::read_deck;
use pw_deck_runs::verify::{Verified, verify};
use pw_input_output::input::read_input;
use pw_input_output::output::or_memory;
use pw_input_output::status::Status;
use pw_status::status::{Counted, status};
use std::alloc::Global;
use std::mem::forget;

/// What is asked of a deck that is not run (docs/guide/COMMANDS.md).
#[derive(Clone, Copy, Debug, PartialEq, Eq)]
pub enum DeckCommand {
    /// Whether it has a fault.
    Check,
    /// The replay of its log.
    Verify,
    /// The status text of so many entries of its log.
    Status { at: u32 },
}

/// Reads the source, and answers what is asked of its deck (docs/guide/COMMANDS.md): the status and its text,
/// or the status of a call that has none.
pub fn deck_output<S: Source>(
    alloc: Global,
    command: DeckCommand,
    source: &mut S,
) -> Result<(Status, Bytes), Status>
    ensures ok { IfOk result (λ output. OfBytes (DefinesBy command) (S.left source.old) output.0 output.1) }
    ensures err { IfErr result (λ status. GivesUp status (S.faults source.old) (S.faults source.new)) }
    ensures kept { OnOk result (S.faults source.new ≡ S.faults source.old) }
    ensures count { S.faults source.old ≤ S.faults source.new }
{
    match read_input(alloc, source) {
        Ok(Some(bytes)) => or_memory(answer(alloc, command, bytes.as_slice())),
        Ok(None) => or_memory(refused(alloc, TOO_LONG)),
        Err(status) => Err(status),
    }
}

/// What a deck's bytes give, or the line of the deck's first fault.
fn answer(alloc: Global, command: DeckCommand, bytes: &[u8]) -> Result<(Status, Bytes), Memory>
    ensures { IfOk result (λ output. DefinesBy command output.0 bytes.now output.1) }
{
    match found(alloc, command, bytes) {
        Ok(output) => Ok(output),
        Err(Refusal::At { line, code }) => refused(alloc, Fault { line, code }),
        Err(Refusal::Memory) => Err(Memory),
    }
}

/// What a deck without a fault gives.
fn found(alloc: Global, command: DeckCommand, bytes: &[u8]) -> Result<(Status, Bytes), Refusal>
    ensures ok { IfOk result (λ output. DefinesBy command output.0 bytes.now output.1) }
    ensures fault { IfErr result (λ refusal. Refuses refusal (deck_of bytes.now)) }
{
    match command {
        DeckCommand::Check => checked(alloc, bytes),
        DeckCommand::Verify => replayed(alloc, bytes),
        DeckCommand::Status { at } => counted(alloc, bytes, at),
    }
}

/// That a deck has no fault. What it says is forgotten: its memory ends with the process.
fn checked(alloc: Global, bytes: &[u8]) -> Result<(Status, Bytes), Refusal>
    ensures ok { IfOk result (λ output. Checks output.0 bytes.now output.1) }
    ensures fault { IfErr result (λ refusal. Refuses refusal (deck_of bytes.now)) }
{
    forget(read_deck(alloc, bytes)?);
    Ok((Status::Finished, deck_ok(alloc)?))
}

/// The report of a deck's log, or the line of its first entry that is no step.
fn replayed(alloc: Global, bytes: &[u8]) -> Result<(Status, Bytes), Refusal>
    ensures ok { IfOk result (λ output. ReplaysDeck output.0 bytes.now output.1) }
    ensures fault { IfErr result (λ refusal. Refuses refusal (deck_of bytes.now)) }
{
    let (verified, text) = verify(alloc, bytes)?;
    Ok((status_after(verified), text))
}

/// The status text of a log's first entries, or the line of the first of them that is no step.
fn counted(alloc: Global, bytes: &[u8], at: u32) -> Result<(Status, Bytes), Refusal>
    ensures ok { IfOk result (λ output. StatusCounts at output.0 bytes.now output.1) }
    ensures fault { IfErr result (λ refusal. Refuses refusal (deck_of bytes.now)) }
{
    let (counted, text) = status(alloc, bytes, at)?;
    Ok((status_at(counted), text))
}

/// The status of a replay that came to this.
fn status_after(verified: Verified) -> Status
    ensures is { result ≡ status_after verified }
    ensures defines { (bytes text : List ℕ) → Verifies bytes verified text → ReplaysDeck result bytes text }
{
    match verified {
        Verified::Run => Status::Finished,
        Verified::NotAStep => Status::NotAStep,
    }
}

/// The status of a count that came to this.
fn status_at(counted: Counted) -> Status
    ensures is { result ≡ status_at counted }
    ensures defines { (bytes : List ℕ) (at : ℕ) (text : List ℕ) → IsStatusOf bytes at counted text
        → StatusCounts at result bytes text }
{
    match counted {
        Counted::Run => Status::Finished,
        Counted::NotAStep => Status::NotAStep,
    }
}
