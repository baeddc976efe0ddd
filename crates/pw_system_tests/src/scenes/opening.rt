//! A deck over a disc that may fail.

ghost use Rattle.std.specs.Prelude.{IfOk, List};
ghost use Rattle.pw_code.specs.Valid.{IsValid};
ghost use Rattle.pw_event.specs.declared.script.FailLine.{FailLine};
ghost use Rattle.pw_world_model.specs.Worlds.{IsDiscOf};
ghost use Rattle.pw_tmf.specs.Faulty.{with_faults};
ghost use Rattle.pw_tmf.specs.Tmf.{told_of};

use pw_base::memory::Memory;
use pw_code::system::System;
use pw_compiled_deck::deck::{Deck, read};
use pw_deck_runs::setups::setup_of;
use pw_tmf::faulty::Faulty;
use pw_tmf::tmf::Tmf;
use pw_world_state::setup::Setup;
use std::alloc::Global;
use std::test::Fail;

/// What a world or a run is made of.
pub struct OpenedDeck {
    pub setup: Setup,
    pub disc: Faulty<Tmf>,
}

/// The setup of a deck, and a new disc whose calls of these numbers fail.
pub fn open(alloc: Global, bytes: &[u8], fail_at: &[u64]) -> Result<OpenedDeck, Fail>
    ensures { IfOk result (λ it. IsDiscOf it.setup.system it.setup.script
        (with_faults it.disc.calls.faults (told_of it.disc.inner))) }
{
    let Deck { system, script, .. } = read(alloc, bytes)?;
    let setup = setup_of(system, script);
    let Ok(disc) = disc_of(alloc, setup.system(), fail_at) else {
        setup.let_go();
        return Err(Fail::new("memory ran out"));
    };
    Ok(OpenedDeck { setup, disc })
}

/// A new disc of a system, whose calls of these numbers fail.
fn disc_of(alloc: Global, system: &System, fail_at: &[u64]) -> Result<Faulty<Tmf>, Memory>
    requires { IsValid system.now }
    ensures { IfOk result (λ disc. (script : List FailLine)
        → IsDiscOf system.now script (with_faults disc.calls.faults (told_of disc.inner))) }
{
    let tmf = Tmf::new(alloc, system)?;
    Faulty::new(alloc, tmf, fail_at)
}
