//! The status text of the first entries of a deck's log.

ghost use Rattle.std.specs.Prelude.{◌≡◌, ◌≤◌, [], IfErr, IfOk, length, take};
ghost use Rattle.pw_base.specs.First.{Refuses};
ghost use Rattle.pw_code.specs.Limits.{most_log_lines};
ghost use Rattle.pw_deck.specs.Deck.{deck_of};
ghost use Rattle.pw_code_meaning.specs.OfSystem.{behaviour};
ghost use Rattle.pw_status.specs.Status.{TellsStatus, IsStatusOf};
ghost use Rattle.pw_status.specs.Watching.{sys_in};

use crate::watch::{Watch, WatchFault};
use pw_base::bytes::Bytes;
use pw_base::fault::Refusal;
use pw_base::memory::Memory;
use pw_code::system::System;
use pw_compiled_deck::deck::{Deck, read};
use pw_event::event::Event;
use pw_laws::serial::laws::runs_keep_their_promises;
use pw_log_lines::log::rule_of;
use pw_report::no_step::no_step_line;
use pw_world_state::setup::Setup;
use std::alloc::Global;

/// What the first entries of a log come to (docs/guide/COMMANDS.md).
#[derive(Clone, Copy, Debug, PartialEq, Eq)]
pub enum Counted {
    /// Each entry is a step.
    Run,
    /// An entry is no step.
    NotAStep,
}

/// Counts the first `at` entries of the log of the deck of these bytes, or all where there are fewer, under
/// the rule of the log's version (docs/guide/COMMANDS.md): their status text, or the line of the first of them that
/// is no step. Entries that are all steps keep what is promised of logs (docs/proof/PROMISES.md). It refuses exactly
/// with the deck's first fault.
pub fn status(alloc: Global, bytes: &[u8], at: u32) -> Result<(Counted, Bytes), Refusal>
    ensures ok { IfOk result (λ output. IsStatusOf bytes.now at output.0 output.1) }
    ensures fault { IfErr result (λ refusal. Refuses refusal (deck_of bytes.now)) }
{
    runs_keep_their_promises();
    let deck = match read(alloc, bytes) {
        Ok(deck) => deck,
        Err(refusal) => return Err(refusal),
    };
    let Deck {
        system,
        script,
        log,
        version,
    } = deck;
    let system = System {
        rule: rule_of(version),
        ..system
    };
    let setup = Setup::new(system, script);
    Ok(count(alloc, setup, first(log.as_slice(), at))?)
}

/// The first `at` entries of a log, or all where there are fewer.
fn first(log: &[Event], at: u32) -> &[Event]
    ensures { result.now ≡ take at log.now }
{
    let at = at as usize;
    if at < log.len() { &log[..at] } else { log }
}

/// Counts a log of a setup.
fn count(alloc: Global, setup: Setup, log: &[Event]) -> Result<(Counted, Bytes), Memory>
    requires { length log.now ≤ most_log_lines }
    ensures { IfOk result (λ output. TellsStatus (behaviour setup.script setup.system) setup.system log.now
        output.0 output.1) }
{
    let mut watch = Watch::new(alloc, setup)?;
    let output = count_over(alloc, &mut watch, log);
    watch.let_go();
    output
}

/// Counts a log over a watch that is new.
fn count_over(alloc: Global, watch: &mut Watch, log: &[Event]) -> Result<(Counted, Bytes), Memory>
    requires new { watch.old.log ≡ [] }
    requires log { length log.now ≤ most_log_lines }
    ensures { IfOk result (λ output. TellsStatus (sys_in watch.old) watch.old.system log.now output.0
        output.1) }
{
    for event in log {
        match watch.push(*event) {
            Ok(()) => {}
            Err(WatchFault::NotAStep) => {
                let number = watch.entries() as u64 + 1;
                return Ok((Counted::NotAStep, no_step_line(alloc, number)?));
            }
            Err(WatchFault::Memory) => return Err(Memory),
        }
    }
    Ok((Counted::Run, watch.text(alloc)?))
}
