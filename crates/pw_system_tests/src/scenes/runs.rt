//! Runs with workers over a disc that may fail.

ghost use Rattle.std.specs.Prelude.{◌≤◌};

use super::gates::OtherComes;
use super::opening::{OpenedDeck, open};
use super::{decks, reports};
use pw_base::mem_sink::MemSink;
use pw_deck_runs::written::{Ran, run_with};
use pw_tmf::faulty::Calls;
use pw_workers::gate::{Gate, NoGate};
use pw_world::replay::MAX_ENTRIES;
use std::alloc::Global;
use std::sync::Wait;
use std::test::Fail;
use std::thread::Threads;

/// What a run leaves.
#[derive(Drop)]
struct RunResult {
    status: u8,
    written: Vec<u8>,
    /// The calls of its disc.
    calls: Calls,
}

/// Runs a deck over a disc whose calls of these numbers fail.
fn run_deck<G: Gate, R: Threads + Wait + Sync>(
    rt: &R,
    alloc: Global,
    bytes: &[u8],
    fail_at: &[u64],
    workers: u8,
    gate: &G,
) -> Result<RunResult, Fail>
    requires { (1 ≤ workers) × (workers ≤ 16) }
{
    let mut sink = MemSink::new(alloc, 100_000, 1_000, &[])?;
    let OpenedDeck { setup, disc } = open(alloc, bytes, fail_at)?;
    let (system, script) = setup.into_parts();
    let Ran { status, disc } = run_with(
        rt,
        alloc,
        system,
        script,
        disc,
        workers,
        MAX_ENTRIES,
        &mut sink,
        gate,
    );
    let Some(disc) = disc else {
        return Err(Fail::new("memory ran out"));
    };
    Ok(RunResult {
        status,
        written: sink.written().to_vec(alloc)?,
        calls: disc.calls,
    })
}

/// A worker is held until another carries the other terminal.
#[test]
fn two_terminals_at_once(rt: HostRuntime) -> Result<(), Fail> {
    let deck = decks::stocks(rt.alloc(), decks::SECOND, decks::BOTH)?;
    let gate = OtherComes::new();
    let left = run_deck(&rt, rt.alloc(), deck.as_slice(), &[], 2, &gate)?;
    assert_eq!(rt; left.status, 0);
    assert!(rt; gate.has_let_go());
    Ok(())
}

/// The run makes four calls of the disc: BEGIN, READ (`failing_first_operate`), REWRITE, and the unit is backed out. The
/// fifth never comes.
#[test]
fn faulty_disc_at_each_call(rt: HostRuntime) -> Result<(), Fail> {
    let deck = decks::stocks(rt.alloc(), b"", decks::OPEN_UNIT)?;
    for call in 1..6 {
        let left = run_deck(&rt, rt.alloc(), deck.as_slice(), &[call], 1, &NoGate)?;
        let (status, report): (u8, &[u8]) = if call < 5 {
            (9, b"")
        } else {
            (0, reports::OPEN_UNIT)
        };
        assert_eq!(rt; left.status, status);
        assert_eq!(rt; left.written.as_slice(), report);
        assert_eq!(rt; left.calls.made, call.min(4));
        assert_eq!(rt; left.calls.faults, u64::from(call < 5));
    }
    Ok(())
}
