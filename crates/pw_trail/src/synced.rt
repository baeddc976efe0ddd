ghost use Rattle.std.specs.Prelude.{◌≡◌, ℕ, ◌+◌, ◌<◌, ◌≤◌, List, length, take, OnErr, OnOk, IsErrOf};
ghost use Rattle.pw_base.specs.Outside.{Rose};
ghost use Rattle.pw_volume.specs.Crash.{written, Torn, Shortened, NoMore, Only, CountsFaults};
ghost use Rattle.pw_volume.specs.Life.{OneCallFails, Life, Passes};

use pw_volume::disk::Disk;
use pw_volume::fault::{DiskFailed, WriteFault};

/// A disk whose every change is synced at once, so that a crash behind it leaves one image. Every disk is one. The trait
/// lacks the parent `Send`, which a method of another trait cannot hand on.
pub trait Synced: Drop {
    /// The bytes that a read gives.
    ghost held: { Self → List ℕ };

    /// What a crash may leave.
    ghost images: { Self → List ℕ → Type 0 };

    /// What the last sync left.
    ghost settled: { Self → List ℕ };

    /// How often it has failed.
    ghost faulted: { Self → ℕ };

    /// How long it lives.
    ghost lasts: { Self → Life };

    /// Writes a piece and syncs.
    fn write_synced(&mut self, at: u64, piece: &[u8]) -> Result<(), WriteFault>
        requires within { at ≤ length (held self.old) }
        requires durable { Only (held self.old) (images self.old) }
        ensures written { OnOk result (held self.new ≡ written at piece.now (held self.old)) }
        ensures durable { OnOk result (Only (held self.new) (images self.new)) }
        ensures images { (image : List ℕ) → images self.new image → Torn at (length piece.now) (held self.old) image }
        ensures count { faulted self.old ≤ faulted self.new }
        ensures cause { IsErrOf result WriteFault.Failed → Rose (faulted self.old) (faulted self.new) }
        ensures settled { OnOk result (settled self.new ≡ held self.new) }
        ensures unsettled { OnErr result (settled self.new ≡ settled self.old) }
        ensures memory { IsErrOf result WriteFault.Memory → (length (held self.old) < at + length piece.now)
            × (held self.new ≡ held self.old) × NoMore (images self.old) (images self.new) }
        ensures passes { OnOk result (Passes 2 (lasts self.old) (lasts self.new)) }
        ensures fails { IsErrOf result WriteFault.Failed → OneCallFails 2 (lasts self.old) (lasts self.new) }
        ensures uncounted { IsErrOf result WriteFault.Memory → lasts self.new ≡ lasts self.old };

    /// Cuts and syncs.
    fn cut_synced(&mut self, end: u64) -> Result<(), DiskFailed>
        requires within { end ≤ length (held self.old) }
        requires durable { Only (held self.old) (images self.old) }
        ensures cut { OnOk result (held self.new ≡ take end (held self.old)) }
        ensures durable { OnOk result (Only (held self.new) (images self.new)) }
        ensures images { (image : List ℕ) → images self.new image → Shortened end (held self.old) image }
        ensures settled { OnOk result (settled self.new ≡ held self.new) }
        ensures unsettled { OnErr result (settled self.new ≡ settled self.old) }
        ensures count { CountsFaults result (faulted self.old) (faulted self.new) }
        ensures passes { OnOk result (Passes 2 (lasts self.old) (lasts self.new)) }
        ensures fails { OnErr result (OneCallFails 2 (lasts self.old) (lasts self.new)) };

    /// What the last sync left is one of the images.
    ghost settled_may_stay: { (disk : Self) → images disk (settled disk) };
}

impl<D: Disk> Synced for D {
    ghost held = { λ disk. D.bytes disk };

    ghost images = { λ disk. D.may_leave disk };

    ghost settled = { λ disk. D.settled disk };

    ghost faulted = { λ disk. D.faults disk };

    ghost lasts = { λ disk. D.life disk };

    ghost settled_may_stay = { λ disk. D.settled_may_stay disk };

    fn write_synced(&mut self, at: u64, piece: &[u8]) -> Result<(), WriteFault> {
        self.write_at(at, piece)?;
        self.sync()?;
        Ok(())
    }

    fn cut_synced(&mut self, end: u64) -> Result<(), DiskFailed> {
        self.cut(end)?;
        self.sync()
    }
}
