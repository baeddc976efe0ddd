ghost use Rattle.std.specs.Prelude.{◌≡◌, ◌<◌, [], IfOk, length};
ghost use Rattle.pw_code.specs.Limits.{most_log_lines};
ghost use Rattle.pw_code.specs.Valid.{IsValid};
ghost use Rattle.pw_status.specs.Shown.{AreShownOf};
ghost use Rattle.pw_status.specs.Tally.{IsFirstTally};
ghost use Rattle.pw_status.specs.Text.{status_text};
ghost use Rattle.pw_tmf.specs.Starting.{told_at_start};
ghost use Rattle.pw_tmf.specs.Tmf.{told_of};
ghost use Rattle.pw_status.specs.Watching.{PushesToWatch, sys_in};

use crate::entering::enter;
use crate::shown::Numbers;
use crate::tally::Tally;
use crate::text::text_of;
use pw_base::bytes::Bytes;
use pw_base::memory::Memory;
use pw_code::system::System;
use pw_entry_tests::there::is_there;
use pw_event::event::Event;
use pw_tmf::tmf::Tmf;
use pw_world::replay::MAX_ENTRIES;
use pw_world::world::World;
use pw_world_state::setup::Setup;
use std::alloc::Global;
use std::marker::Model;
use thiserror::Error;

/// Why an entry was not pushed.
#[derive(Clone, Copy, Debug, PartialEq, Eq, Drop, Error)]
pub enum WatchFault {
    /// It is no step.
    #[error("not a step")]
    NotAStep,
    /// Memory ran out.
    #[error("out of memory")]
    Memory,
}

impl From<Memory> for WatchFault {
    ghost use Rattle.pw_status.specs.declared.watch.WatchFault.TheVariants.{Memory as OutOfMemory};

    ghost from_gives = { λ _ fault. fault ≡ OutOfMemory };

    fn from(_memory: Memory) -> WatchFault {
        WatchFault::Memory
    }
}

/// A watch over a log: its status text at any entry, by counts that each entry brings up to date
/// (docs/guide/COMMANDS.md). Contracts see the system, its failure lines and the log that was pushed.
#[derive(Drop)]
pub struct Watch {
    world: World<Tmf>,
    tally: Tally,
    numbers: Numbers,
}

impl Model for Watch {
    ghost use Rattle.pw_status.specs.Watching.{IsWatch, WatchState, watched};

    ghost Value = { WatchState };

    ghost view = { λ watch. watched watch.world };

    ghost invariant = { λ watch. IsWatch watch.world watch.tally watch.numbers };
}

impl Watch {
    /// A watch over the empty log of a setup.
    pub fn new(alloc: Global, setup: Setup) -> Result<Watch, Memory>
        ensures { IfOk result (λ watch. watch
            ≡ record { system = setup.system; script = setup.script; log = [] }) }
    {
        let Ok(parts) = first_parts(alloc, setup.system()) else {
            setup.let_go();
            return Err(Memory);
        };
        let WatchParts {
            tally,
            numbers,
            disc,
        } = parts;
        let (system, script) = setup.into_parts();
        let world = World::new(alloc, system, script, disc, MAX_ENTRIES)?;
        Ok(Watch {
            world,
            tally,
            numbers,
        })
    }

    /// Takes one more entry in, if it is a step. Every answer but Ok leaves the watch as it was. It costs
    /// what the entry touches.
    pub fn push(&mut self, event: Event) -> Result<(), WatchFault>
        requires { length self.old.log < most_log_lines }
        ensures { PushesToWatch self.old event result self.new }
    {
        self.world.holds();
        if !is_there(self.world.system(), &event) {
            return Err(WatchFault::NotAStep);
        }
        enter(&mut self.world, &mut self.tally, &mut self.numbers, &event)
    }

    /// How many entries were pushed.
    pub fn entries(&self) -> usize
        ensures { result ≡ length self.now.log }
    {
        self.world.log().len()
    }

    /// The status text of the log that was pushed.
    pub fn text(&self, alloc: Global) -> Result<Bytes, Memory>
        ensures { IfOk result (λ text. text ≡ status_text self.now.system (sys_in self.now) self.now.log) }
    {
        text_of(alloc, &self.world, &self.tally, &self.numbers)
    }

    /// Lets the watch go.
    pub fn let_go(self) {
        self.world.into_disc();
    }
}

/// What a watch over the empty log of a system is made of, but for its world.
#[derive(Drop)]
struct WatchParts {
    tally: Tally,
    numbers: Numbers,
    disc: Tmf,
}

/// The parts of a watch over the empty log of a system.
fn first_parts(alloc: Global, system: &System) -> Result<WatchParts, Memory>
    requires { IsValid system.now }
    ensures tally { IfOk result (λ parts. IsFirstTally system.now parts.tally) }
    ensures count { IfOk result (λ parts. length parts.numbers ≡ length system.now.terminals) }
    ensures none { IfOk result (λ parts. AreShownOf [] parts.numbers) }
    ensures disc { IfOk result (λ parts. told_of parts.disc ≡ told_at_start system.now) }
{
    Ok(WatchParts {
        tally: Tally::new(alloc, system)?,
        numbers: Numbers::new(alloc, system.terminals.len())?,
        disc: Tmf::new(alloc, system)?,
    })
}
