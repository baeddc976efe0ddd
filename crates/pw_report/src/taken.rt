//! What is taken out of a world whose run has ended. Worlds and systems are let go here, so that no caller
//! has to prove what frees one.

ghost use Rattle.std.specs.Prelude.{◌≡◌, ◌≤◌, IfOk, length};
ghost use Rattle.pw_report_text.specs.Meaning.{files_text, report_text};
ghost use Rattle.pw_tmf.specs.Committed.{committed};
ghost use Rattle.pw_world.specs.States.{seen};
ghost use Rattle.pw_world_model.specs.Commits.{commits_in};
ghost use Rattle.pw_world_model.specs.Seen.{state_of, sys_of};
ghost use Rattle.pw_paired.specs.Step.{IsRun};
ghost use Rattle.pw_paired.specs.Units.{committed_files};

use crate::report;
use pw_base::bytes::Bytes;
use pw_base::memory::Memory;
use pw_code::system::System;
use pw_tmf::disc::Disc;
use pw_tmf::laws::committed_laws;
use pw_world::world::World;
use pw_world_state::runs::run_laws;
use std::alloc::Global;

/// The report of a world's log, which is a run (docs/design/ARCHITECTURE.md).
pub fn report_of<D: Disc>(alloc: Global, world: World<D>) -> Result<Bytes, Memory>
    ensures run { IsRun (sys_of (seen D.told world)) (seen D.told world).log }
    ensures text { IfOk result (λ text. text ≡ report_text (seen D.told world).system
        (sys_of (seen D.told world)) (seen D.told world).log) }
{
    world.holds();
    report::report(alloc, &world)
}

/// The FILES part of the report of a world's log, which is a run (docs/design/ARCHITECTURE.md).
pub fn files_of<D: Disc>(alloc: Global, world: World<D>) -> Result<Bytes, Memory>
    ensures run { IsRun (sys_of (seen D.told world)) (seen D.told world).log }
    ensures text { IfOk result (λ text. text ≡ files_text (seen D.told world).system
        (sys_of (seen D.told world)) (seen D.told world).log) }
{
    world.holds();
    report::files_part(alloc, &world)
}

/// The disc of a world. What it tells as committed are the committed records behind the log, and it has counted the units
/// that commit in the log.
pub fn disc_of<D: Disc>(world: World<D>) -> D
    ensures told { D.told result ≡ (seen D.told world).kept.disc }
    ensures committed { committed (D.told result)
        ≡ committed_files (sys_of (seen D.told world)) (state_of (seen D.told world)) }
    ensures run { IsRun (sys_of (seen D.told world)) (seen D.told world).log }
    ensures room { length (seen D.told world).log ≤ (seen D.told world).limit }
    ensures commits { (seen D.told world).kept.disc.commits
        ≡ commits_in (sys_of (seen D.told world)) (seen D.told world).log }
{
    world.holds();
    run_laws();
    committed_laws();
    world.into_disc()
}

/// Lets go of a system that is not run, or no more.
pub fn let_go(_system: System) {}
