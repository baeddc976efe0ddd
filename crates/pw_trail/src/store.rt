ghost use Rattle.std.specs.Prelude.{◌≡◌, ℕ, ◌⊎◌, ◌+◌, ◌^◌, ◌<◌, ◌≤◌, List, ◌∷◌, ◌++◌, length, take, OnErr, OnOk, IsErrOf};
ghost use Rattle.pw_base.specs.Outside.{Rose};
ghost use Rattle.pw_volume.specs.Crash.{NoMore, Only};
ghost use Rattle.pw_volume.specs.Life.{OneCallFails, Passes};
ghost use Rattle.pw_trail.specs.Stored.{IsBehind, IsGated};

use crate::synced::Synced;
use pw_volume::fault::WriteFault;

/// Writes what is staged behind the closed gate at the end of a disk, and then opens the gate, each with a sync.
#[tactic(auto, using(crate::proofs::Stages::torn_behind, crate::proofs::Stages::torn_gate))]
pub fn store<S: Synced>(disk: &mut S, gate: u64, staged: &[u8]) -> Result<(), WriteFault>
    requires size { length (S.held disk.old) ≡ gate + 1 }
    requires fits { gate + 1 < 2 ^ 64 }
    requires durable { Only (S.held disk.old) (S.images disk.old) }
    ensures stored { OnOk result (S.held disk.new ≡ take gate (S.held disk.old) ++ (1 ∷ staged.now)) }
    ensures durable { OnOk result (Only (S.held disk.new) (S.images disk.new)) }
    ensures images { (image : List ℕ) → S.images disk.new image
        → IsBehind (S.held disk.old) image ⊎ IsGated gate (S.held disk.old) staged.now image }
    ensures settled { OnOk result (S.settled disk.new ≡ S.held disk.new) }
    ensures unsettled { OnErr result (IsBehind (S.held disk.old) (S.settled disk.new)) }
    ensures count { S.faulted disk.old ≤ S.faulted disk.new }
    ensures cause { IsErrOf result WriteFault.Failed → Rose (S.faulted disk.old) (S.faulted disk.new) }
    ensures memory { IsErrOf result WriteFault.Memory → (S.held disk.new ≡ S.held disk.old)
        × NoMore (S.images disk.old) (S.images disk.new) }

    // Four calls of the disk.
    ensures passes { OnOk result (Passes 4 (S.lasts disk.old) (S.lasts disk.new)) }
    ensures fails { IsErrOf result WriteFault.Failed → OneCallFails 4 (S.lasts disk.old) (S.lasts disk.new) }
    ensures uncounted { IsErrOf result WriteFault.Memory → S.lasts disk.new ≡ S.lasts disk.old }
{
    disk.write_synced(gate + 1, staged)?;
    disk.write_synced(gate, &[1])?;
    Ok(())
}
