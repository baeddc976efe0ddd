//! The runs of a deck.

ghost use Rattle.std.specs.Prelude.{◌≡◌, ◌≤◌, IfErr, IfOk, List, OnOk, ℕ};
ghost use Rattle.pathway.specs.Decks.{IsRunInRange, PairRuns, RunsDeck, RunsBy, TrailRuns, status_behind};
ghost use Rattle.pathway.specs.Statuses.{OfBytes};
ghost use Rattle.pw_input_output.specs.Inputs.{GivesUp};
ghost use Rattle.pw_deck_runs.specs.recovery.Headline.{Recovers};

use crate::answers::{TOO_LONG, refused};
use crate::endings::status_of;
use pw_base::bytes::Bytes;
use pw_base::fault::{Fault, Refusal};
use pw_base::memory::Memory;
use pw_base::source::Source;
use pw_deck_runs::disc::ending::PairRan;
use pw_deck_runs::disc::run::run as run_pair;
use pw_deck_runs::recovery::ending::Recovered;
use pw_deck_runs::recovery::recover::trail;
use pw_deck_runs::run::run;
use pw_input_output::input::read_input;
use pw_input_output::output::or_memory;
use pw_input_output::status::Status;
use pw_workers::bounds::RunBounds;
use pw_workers::gate::Gate;
use std::alloc::Global;
use std::sync::Wait;
use std::thread::Threads;

/// How a deck is run, for at most so many entries (docs/guide/COMMANDS.md).
#[derive(Clone, Copy, Debug, PartialEq, Eq)]
pub enum RunCommand {
    /// Over a disc that does not fail.
    Run { events: u32 },
    /// Over a disc pair.
    Disc { events: u32 },
    /// Over a trail on a disk that stops at its call `at`.
    Trail { events: u32, at: u32 },
}

/// Reads the source, and runs its deck as is asked with so many workers, 1 to 16 (docs/guide/COMMANDS.md): the
/// status and its text, or the status of a call that has none. It may wait for a thread.
pub fn run_output<S: Source, G: Gate, R: Threads + Wait + Sync>(
    rt: &R,
    alloc: Global,
    command: RunCommand,
    workers: u8,
    source: &mut S,
    gate: &G,
) -> Result<(Status, Bytes), Status>
    requires range { IsRunInRange command }
    requires workers { (1 ≤ workers) × (workers ≤ 16) }
    ensures ok { IfOk result (λ output. OfBytes (RunsBy command) (S.left source.old) output.0 output.1) }
    ensures err { IfErr result (λ status. GivesUp status (S.faults source.old) (S.faults source.new)) }
    ensures kept { OnOk result (S.faults source.new ≡ S.faults source.old) }
    ensures count { S.faults source.old ≤ S.faults source.new }
{
    match read_input(alloc, source) {
        Ok(Some(bytes)) => or_memory(answer(rt, alloc, command, workers, bytes.as_slice(), gate)),
        Ok(None) => or_memory(refused(alloc, TOO_LONG)),
        Err(status) => Err(status),
    }
}

/// What the bytes of a deck give, or the line of their first fault.
fn answer<G: Gate, R: Threads + Wait + Sync>(
    rt: &R,
    alloc: Global,
    command: RunCommand,
    workers: u8,
    bytes: &[u8],
    gate: &G,
) -> Result<(Status, Bytes), Memory>
    requires range { IsRunInRange command }
    requires workers { (1 ≤ workers) × (workers ≤ 16) }
    ensures { IfOk result (λ output. RunsBy command output.0 bytes.now output.1) }
{
    match command {
        RunCommand::Run { events } => {
            let bounds = RunBounds { workers, events };
            reported(rt, alloc, bytes, bounds, gate)
        }
        RunCommand::Disc { events } => {
            let bounds = RunBounds { workers, events };
            paired(rt, alloc, bytes, bounds, gate)
        }
        RunCommand::Trail { events, at } => {
            let bounds = RunBounds { workers, events };
            recovered(rt, alloc, bytes, bounds, at, gate)
        }
    }
}

/// The report of a run of a deck.
fn reported<G: Gate, R: Threads + Wait + Sync>(
    rt: &R,
    alloc: Global,
    bytes: &[u8],
    bounds: RunBounds,
    gate: &G,
) -> Result<(Status, Bytes), Memory>
    ensures { IfOk result (λ output. RunsDeck bounds.events output.0 bytes.now output.1) }
{
    match run(rt, alloc, bytes, bounds, gate) {
        Ok((ended, text)) => Ok((status_of(ended), text)),
        Err(Refusal::At { line, code }) => refused(alloc, Fault { line, code }),
        Err(Refusal::Memory) => Err(Memory),
    }
}

/// The report of a run of a deck over a disc pair. Where the pair is lost there is none.
fn paired<G: Gate, R: Threads + Wait + Sync>(
    rt: &R,
    alloc: Global,
    bytes: &[u8],
    bounds: RunBounds,
    gate: &G,
) -> Result<(Status, Bytes), Memory>
    ensures { IfOk result (λ output. PairRuns bounds.events output.0 bytes.now output.1) }
{
    match run_pair(rt, alloc, bytes, bounds, gate) {
        Ok((ran, text)) => match ran {
            PairRan::Ended(ended) => Ok((status_of(ended), text)),
            PairRan::Lost(pair) => {
                pair.let_go();
                Ok((Status::DiscFault, text))
            }
        },
        Err(Refusal::At { line, code }) => refused(alloc, Fault { line, code }),
        Err(Refusal::Memory) => Err(Memory),
    }
}

/// The records that are recovered of a run of a deck over a trail.
fn recovered<G: Gate, R: Threads + Wait + Sync>(
    rt: &R,
    alloc: Global,
    bytes: &[u8],
    bounds: RunBounds,
    at: u32,
    gate: &G,
) -> Result<(Status, Bytes), Memory>
    ensures { IfOk result (λ output. TrailRuns bounds.events at output.0 bytes.now output.1) }
{
    match trail(rt, alloc, bytes, bounds, at, gate) {
        Ok((recovered, text)) => Ok((status_behind(recovered), text)),
        Err(Refusal::At { line, code }) => refused(alloc, Fault { line, code }),
        Err(Refusal::Memory) => Err(Memory),
    }
}

/// The status of a run over a trail that ended so.
fn status_behind(recovered: Recovered) -> Status
    ensures is { result ≡ status_behind recovered }
    ensures defines { (events at : ℕ) (bytes text : List ℕ) → Recovers bytes events at recovered text
        → TrailRuns events at result bytes text }
{
    match recovered {
        Recovered::Regular | Recovered::Stopped => Status::Finished,
        Recovered::Irregular => Status::Irregular,
        Recovered::Full => Status::Limit,
    }
}
