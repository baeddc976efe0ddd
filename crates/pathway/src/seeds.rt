//! What is asked of a seed.

ghost use Rattle.std.specs.Prelude.{◌≡◌, ◌≤◌, IfOk};
ghost use Rattle.pathway.specs.Decks.{Trials};
ghost use Rattle.pw_gen.specs.Generated.{generated};

use crate::endings::status_of;
use pw_base::bytes::Bytes;
use pw_base::memory::Memory;
use pw_deck_runs::trial::trial;
use pw_gen::generate::generate;
use pw_input_output::status::Status;
use pw_workers::gate::Gate;
use std::alloc::Global;
use std::sync::Wait;
use std::thread::Threads;

/// The generated deck.
pub fn generated(alloc: Global, seed: u32, terms: u32) -> Result<(Status, Bytes), Memory>
    ensures { IfOk result (λ output. (output.0 ≡ Status.Finished) × (output.1 ≡ generated seed terms)) }
{
    let deck = generate(alloc, seed, terms)?;
    Ok((Status::Finished, deck))
}

/// The records that a run of the generated deck leaves. It may wait for a thread.
pub fn tried<G: Gate, R: Threads + Wait + Sync>(
    rt: &R,
    alloc: Global,
    seed: u32,
    terms: u32,
    workers: u8,
    gate: &G,
) -> Result<(Status, Bytes), Memory>
    requires terms { (1 ≤ terms) × (terms ≤ 64) }
    requires workers { (1 ≤ workers) × (workers ≤ 16) }
    ensures { IfOk result (λ output. Trials seed terms output.0 output.1) }
{
    let (ended, text) = trial(rt, alloc, seed, terms, workers, gate)?;
    Ok((status_of(ended), text))
}
