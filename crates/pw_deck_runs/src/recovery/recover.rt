//! The command `trail`: a deck runs over a trail on a disk in memory, and what is recovered is listed.

ghost use Rattle.std.specs.Prelude.{◌≡◌, IfErr, IfOk};
ghost use Rattle.pw_base.specs.First.{Refuses};
ghost use Rattle.pw_deck.specs.Deck.{deck_of};
ghost use Rattle.pw_code_meaning.specs.OfSystem.{behaviour};
ghost use Rattle.pw_deck_runs.specs.recovery.Headline.{Recovers};
ghost use Rattle.pw_deck_runs.specs.recovery.Runs.{RecoversTo};

use crate::recovery::ending::Recovered;
use crate::recovery::found::found;
use crate::recovery::run::run_known;
use crate::recovery::start::start;
use crate::setups::setup_of;
use pw_base::bytes::Bytes;
use pw_base::fault::Refusal;
use pw_base::memory::Memory;
use pw_code::copies::Duplicate;
use pw_code::system::System;
use pw_compiled_deck::deck::{Deck, read};
use pw_laws::serial::laws::runs_keep_their_promises;
use pw_report::taken::let_go;
use pw_report_text::laws::printed_is_the_report;
use pw_volume::mem_disk::MemDisk;
use pw_workers::bounds::RunBounds;
use pw_workers::gate::Gate;
use pw_world_state::setup::Setup;
use std::alloc::Global;
use std::marker::Brand;
use std::sync::Wait;
use std::thread::Threads;

/// Runs the deck of these bytes within bounds over a trail on a disk in memory (docs/design/STORAGE.md), crashes
/// the disk, opens the trail again and lists the records that it finds: how the run ended, and the list.
/// The disk's write, cut or sync number `at` behind the first opening and each later call fail, and none
/// where `at` is 0. It refuses exactly with the deck's first fault. It may wait for a thread.
///
/// The log is a run of the deck, by the trees of its programs, and the list is the FILES part of its
/// report, whether or not the disk has failed. It has failed only where `at` is above 0, and then
/// (`at` - 1) / 4 units of the log commit.
pub fn trail<G: Gate, R: Threads + Wait + Sync>(
    rt: &R,
    alloc: Global,
    bytes: &[u8],
    bounds: RunBounds,
    at: u32,
    gate: &G,
) -> Result<(Recovered, Bytes), Refusal>
    ensures ok { IfOk result (λ output. Recovers bytes.now bounds.events at output.0 output.1) }
    ensures fault { IfErr result (λ refusal. Refuses refusal (deck_of bytes.now)) }
{
    runs_keep_their_promises();
    let Deck { system, script, .. } = match read(alloc, bytes) {
        Ok(deck) => deck,
        Err(refusal) => return Err(refusal),
    };
    let setup = setup_of(system, script);
    Ok(run_and_recover(rt, alloc, setup, bounds, at, gate)?)
}

/// Runs a setup over such a trail: how the run ended, and the list of what is found. The run takes the
/// setup, so a copy of its system opens the trail.
fn run_and_recover<G: Gate, R: Threads + Wait + Sync>(
    rt: &R,
    alloc: Global,
    setup: Setup,
    bounds: RunBounds,
    at: u32,
    gate: &G,
) -> Result<(Recovered, Bytes), Memory>
    ensures { IfOk result (λ output. RecoversTo (behaviour setup.script setup.system) setup.system
        bounds.events at output.0 output.1) }
{
    let Ok(own) = setup.system().copy(alloc) else {
        setup.let_go();
        return Err(Memory);
    };
    let output = run_beside(rt, alloc, setup, &own, bounds, at, gate);
    let_go(own);
    output
}

/// Runs a setup over a trail that is opened by a copy of its system: how the run ended, and the list of
/// what is found.
fn run_beside<G: Gate, R: Threads + Wait + Sync>(
    rt: &R,
    alloc: Global,
    setup: Setup,
    own: &System,
    bounds: RunBounds,
    at: u32,
    gate: &G,
) -> Result<(Recovered, Bytes), Memory>
    requires { own.now ≡ setup.system }
    ensures { IfOk result (λ output. RecoversTo (behaviour setup.script setup.system) setup.system
        bounds.events at output.0 output.1) }
{
    printed_is_the_report();
    setup.holds();
    let Ok(first) = start(alloc, own, at) else {
        setup.let_go();
        return Err(Memory);
    };
    let (recovered, last) = run_known::<MemDisk, Brand, G, R>(
        rt, alloc, setup, first, bounds, gate,
    )?;
    let text = found(alloc, own, last)?;
    Ok((recovered, text))
}
