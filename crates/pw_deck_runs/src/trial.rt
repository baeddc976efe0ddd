ghost use Rattle.std.specs.Prelude.{◌≤◌, IfOk};
ghost use Rattle.pw_deck_runs.specs.Trials.{Tries, TriesSystem};
ghost use Rattle.pw_code_meaning.specs.OfSystem.{behaviour};

use crate::over_tmf::run_over_tmf;
use crate::setups::setup_of;
use pw_base::bytes::Bytes;
use pw_base::fault::Refusal;
use pw_base::memory::Memory;
use pw_compiled_deck::deck::{Deck, read};
use pw_gen::generate::generate;
use pw_gen::laws::generated_laws;
use pw_generated_runs::laws::generated_runs_leave_counts;
use pw_laws::serial::laws::runs_keep_their_promises;
use pw_report::taken::files_of;
use pw_workers::bounds::RunBounds;
use pw_workers::ending::LogEnding;
use pw_workers::gate::Gate;
use pw_world::replay::MAX_ENTRIES;
use pw_world_state::setup::Setup;
use std::alloc::Global;
use std::sync::Wait;
use std::thread::Threads;

/// Runs the deck that is generated of a seed for 1 to 64 terminals, with from 1 to 16 workers, for at
/// most 500,000 entries (docs/design/ARCHITECTURE.md): how the run ended, and the FILES part of its report. The deck has
/// no fault, so it is not refused. A run that is finished has ended regularly, and its text is the same at
/// each call: it tells of each key how many entries have it. It may wait for a thread.
pub fn trial<G: Gate, R: Threads + Wait + Sync>(
    rt: &R,
    alloc: Global,
    seed: u32,
    terminals: u32,
    workers: u8,
    gate: &G,
) -> Result<(LogEnding, Bytes), Memory>
    requires terminals { (1 ≤ terminals) × (terminals ≤ 64) }
    requires workers { (1 ≤ workers) × (workers ≤ 16) }
    ensures { IfOk result (λ output. Tries seed terminals output.0 output.1) }
{
    generated_laws();
    generated_runs_leave_counts();
    runs_keep_their_promises();
    let bytes = generate(alloc, seed, terminals)?;
    let deck = match read(alloc, bytes.as_slice()) {
        Ok(deck) => deck,
        Err(Refusal::Memory) => return Err(Memory),
        Err(Refusal::At { .. }) => unreachable!(),
    };
    let Deck { system, script, .. } = deck;
    let setup = setup_of(system, script);
    try_setup(rt, alloc, setup, workers, gate)
}

/// Runs a setup: how the run ended, and the FILES part of its report.
fn try_setup<G: Gate, R: Threads + Wait + Sync>(
    rt: &R,
    alloc: Global,
    setup: Setup,
    workers: u8,
    gate: &G,
) -> Result<(LogEnding, Bytes), Memory>
    requires { (1 ≤ workers) × (workers ≤ 16) }
    ensures { IfOk result (λ output. TriesSystem (behaviour setup.script setup.system) setup.system output.0
        output.1) }
{
    let bounds = RunBounds {
        workers,
        events: MAX_ENTRIES,
    };
    let (ended, world) = run_over_tmf(rt, alloc, setup, bounds, gate)?;
    let text = files_of(alloc, world)?;
    Ok((ended, text))
}
