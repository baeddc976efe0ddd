ghost use Rattle.std.specs.Prelude.{◌≡◌, ◌-◌, ◌<◌, ◌≤◌, ◌^◌, All, IfOk, length};
ghost use Rattle.pw_code.specs.Limits.{most_log_lines};
ghost use Rattle.pw_code.specs.Valid.{IsValid};
ghost use Rattle.pw_code_meaning.specs.OfSystem.{behaviour};
ghost use Rattle.pw_world_state.specs.May.{IsLineThere};
ghost use Rattle.pw_world.specs.States.{seen};
ghost use Rattle.pw_world_model.specs.Worlds.{IsDiscOf, IsNew};
ghost use Rattle.pw_onecopy.specs.IsBehaviour.{IsBehaviour};

use crate::ledger::Ledger;
use pw_base::memory::Memory;
use pw_code::system::System;
use pw_event::script::Script;
use pw_tmf::disc::Disc;
use pw_world_model::stepping::first_laws;
use pw_world_store::keep::Keep;
use std::alloc::Global;
use std::marker::Model;
use std::snapshot::Snapshot;

/// The paired system of a deck at work (docs/design/ARCHITECTURE.md). Its log is a run, and what it keeps stands
/// for the state after it.
#[derive(Drop)]
pub struct World<D: Disc> {
    pub(crate) alloc: Global,
    pub(crate) keep: Keep<D>,
    /// The disc as it was when the world was made, for contracts only.
    pub(crate) first: Snapshot<D>,
    pub(crate) script: Script,
    /// How many entries the log may have.
    pub(crate) limit: u32,
    /// Whether a fault of the disc was answered.
    pub(crate) failed: bool,
    pub(crate) ledger: Ledger,
}

impl<D: Disc> Model for World<D> {
    ghost use Rattle.pw_world.specs.States.{IsMonitor, WorldState};

    ghost Value = { WorldState D };

    ghost view = { λ world. record {
      keep = world.keep;
      first = world.first.value;
      script = world.script.lines;
      limit = world.limit;
      failed = world.failed;
      ledger = world.ledger;
    } };

    ghost invariant = { λ world. IsMonitor D.told (record {
      keep = world.keep;
      first = world.first.value;
      script = world.script.lines;
      limit = world.limit;
      failed = world.failed;
      ledger = world.ledger;
    }) };
}

impl<D: Disc> World<D> {
    /// A new world of a system, whose failure lines name what it has, over a disc of it. Its log may
    /// have `limit` entries, at most `MAX_ENTRIES`. No actor is out.
    pub fn new(
        alloc: Global,
        system: System,
        script: Script,
        disc: D,
        limit: u32,
    ) -> Result<World<D>, Memory>
        requires valid { IsValid system }
        requires deck { IsBehaviour (behaviour script.lines system) }
        requires lines { All (IsLineThere system) script.lines }
        requires few { length script.lines < 2 ^ 32 - 1 }
        requires disc { IsDiscOf system script.lines (D.told disc) }
        requires limit { limit ≤ most_log_lines }
        ensures { IfOk result (λ world. IsNew system script.lines (D.told disc) limit (seen D.told world)) }
    {
        first_laws();
        let ledger = Ledger::new(alloc, &system, &script)?;
        let first = Snapshot::of(&disc);
        let keep = Keep::new(alloc, system, disc)?;
        Ok(World {
            alloc,
            keep,
            first,
            script,
            limit,
            failed: false,
            ledger,
        })
    }

    /// The disc, as the calls left it.
    pub fn disc(&self) -> &D
        ensures { result.now ≡ self.now.keep.disc }
    {
        self.keep.disc()
    }

    /// The same disc, where nothing else is wanted any more. It takes no memory.
    pub fn into_disc(self) -> D
        ensures { result ≡ self.keep.disc }
    {
        self.keep.into_disc()
    }
}
