ghost use Rattle.std.specs.Prelude.{◌≤◌, IfErr, IfOk, length};
ghost use Rattle.pw_base.specs.First.{Refuses};
ghost use Rattle.pw_code.specs.Limits.{most_log_lines};
ghost use Rattle.pw_deck.specs.Deck.{deck_of};
ghost use Rattle.pw_deck_runs.specs.Replays.{Replays, Verifies};
ghost use Rattle.pw_code_meaning.specs.OfSystem.{behaviour};

use pw_base::bytes::Bytes;
use pw_base::fault::Refusal;
use pw_base::memory::Memory;
use pw_code::system::System;
use pw_compiled_deck::deck::{Deck, read};
use pw_event::event::Event;
use pw_laws::serial::laws::runs_keep_their_promises;
use pw_log_lines::log::rule_of;
use pw_read_back::laws::decks_are_read_back;
use pw_report::no_step::no_step_line;
use pw_report::taken::report_of;
use pw_tmf::tmf::Tmf;
use pw_world::replay::ReplayFault;
use pw_world::world::World;
use pw_world_state::setup::Setup;
use std::alloc::Global;

/// What the replay of a log comes to (docs/design/ARCHITECTURE.md).
#[derive(Clone, Copy, Debug, PartialEq, Eq)]
pub enum Verified {
    /// Each entry is a step.
    Run,
    /// An entry is no step.
    NotAStep,
}

/// Replays the log of the deck of these bytes under the rule of its version (docs/design/ARCHITECTURE.md): the report of
/// it, or the line of its first entry that is no step. It refuses exactly with the deck's first fault.
pub fn verify(alloc: Global, bytes: &[u8]) -> Result<(Verified, Bytes), Refusal>
    ensures ok { IfOk result (λ output. Verifies bytes.now output.0 output.1) }
    ensures fault { IfErr result (λ refusal. Refuses refusal (deck_of bytes.now)) }
{
    runs_keep_their_promises();
    decks_are_read_back();
    let deck = match read(alloc, bytes) {
        Ok(deck) => deck,
        Err(refusal) => return Err(refusal),
    };
    let Deck {
        system,
        script,
        log,
        version,
    } = deck;
    let system = System {
        rule: rule_of(version),
        ..system
    };
    let setup = Setup::new(system, script);
    Ok(replay(alloc, setup, log.as_slice())?)
}

/// Replays a log of a setup.
fn replay(alloc: Global, setup: Setup, log: &[Event]) -> Result<(Verified, Bytes), Memory>
    requires { length log.now ≤ most_log_lines }
    ensures { IfOk result (λ output. Replays (behaviour setup.script setup.system) setup.system log.now output.0
        output.1) }
{
    let Ok(disc) = Tmf::new(alloc, setup.system()) else {
        setup.let_go();
        return Err(Memory);
    };
    let (system, script) = setup.into_parts();
    match World::replay(alloc, system, script, disc, log) {
        Ok(world) => Ok((Verified::Run, report_of(alloc, world)?)),
        Err(ReplayFault::NotAStep(number)) => Ok((
            Verified::NotAStep,
            no_step_line(alloc, number)?,
        )),
        Err(ReplayFault::DiscFault(_)) => unreachable!(),
        Err(ReplayFault::Memory) => Err(Memory),
    }
}
