ghost use Rattle.std.specs.Prelude.{◌≡◌, ℕ, ◌+◌, ◌<◌, ◌≤◌, List, length, take, drop, IfOk, OnOk, OnErr, IsErrOf, is_err};
ghost use Rattle.pw_base.specs.Outside.{Rose};
ghost use Rattle.pw_volume.specs.Crash.{IsWithin, written, Torn, Shortened, ImagesComeBy, NoMore, Only, CountsFaults};
ghost use Rattle.pw_volume.specs.Life.{Life, Lives, has_failed, spent};

use crate::fault::{DiskFailed, WriteFault};

/// A run of bytes that outlives a crash, as far as it was synced. `DiskFailed` and `WriteFault::Failed` come only where
/// the count of faults rose, or stands at its end; docs/design/STORAGE.md has what a crash may leave.
pub trait Disk: Send + Drop {
    /// The bytes that a read gives.
    ghost bytes: { Self → List ℕ };

    /// The images: what a crash at this moment may leave.
    ghost may_leave: { Self → List ℕ → Type 0 };

    /// What the last sync that succeeded left.
    ghost settled: { Self → List ℕ };

    /// How often the disk has failed.
    ghost faults: { Self → ℕ };

    /// How long the disk lives.
    ghost life: { Self → Life };

    /// How many bytes a read gives.
    fn length(&mut self) -> Result<u64, DiskFailed>
        ensures length { IfOk result (λ n. n ≡ length (bytes self.old)) }
        ensures bytes { bytes self.new ≡ bytes self.old }
        ensures images { NoMore (may_leave self.old) (may_leave self.new) }
        ensures count { CountsFaults result (faults self.old) (faults self.new) }
        ensures settled { settled self.new ≡ settled self.old }
        ensures lives { Lives (life self.old) (is_err result) }
        ensures life { life self.new ≡ life self.old };

    /// Fills `into` with the bytes from `at` on, all of which are there.
    fn read(&mut self, at: u64, into: &mut [u8]) -> Result<(), DiskFailed>
        requires { at + length into.old ≤ length (bytes self.old) }
        ensures read { OnOk result (into.new ≡ take (length into.old) (drop at (bytes self.old))) }
        ensures bytes { bytes self.new ≡ bytes self.old }
        ensures images { NoMore (may_leave self.old) (may_leave self.new) }
        ensures count { CountsFaults result (faults self.old) (faults self.new) }
        ensures settled { settled self.new ≡ settled self.old }
        ensures lives { Lives (life self.old) (is_err result) }
        ensures life { life self.new ≡ life self.old };

    /// Writes a piece over what is there from `at` on, which is at most the length; it may go past the end. `Memory`
    /// comes only past the end, and changes nothing; behind `Failed` a crash may leave any part of the piece.
    fn write_at(&mut self, at: u64, piece: &[u8]) -> Result<(), WriteFault>
        requires { IsWithin at (bytes self.old) }
        ensures written { OnOk result (bytes self.new ≡ written at piece.now (bytes self.old)) }
        ensures images { ImagesComeBy (Torn at (length piece.now)) (may_leave self.old) (may_leave self.new) }
        ensures count { faults self.old ≤ faults self.new }
        ensures cause { IsErrOf result WriteFault.Failed → Rose (faults self.old) (faults self.new) }
        ensures memory { IsErrOf result WriteFault.Memory → (length (bytes self.old) < at + length piece.now)
            × (bytes self.new ≡ bytes self.old) × NoMore (may_leave self.old) (may_leave self.new) }
        ensures settled { settled self.new ≡ settled self.old }
        ensures lives { Lives (life self.old) (has_failed result) }
        ensures spent { OnOk result (life self.new ≡ spent (life self.old)) }
        ensures life { OnErr result (life self.new ≡ life self.old) };

    /// Keeps the first `length` bytes, at most as many as there are.
    fn cut(&mut self, length: u64) -> Result<(), DiskFailed>
        requires { IsWithin length (bytes self.old) }
        ensures cut { OnOk result (bytes self.new ≡ take length (bytes self.old)) }
        ensures images { ImagesComeBy (Shortened length) (may_leave self.old) (may_leave self.new) }
        ensures count { CountsFaults result (faults self.old) (faults self.new) }
        ensures settled { settled self.new ≡ settled self.old }
        ensures lives { Lives (life self.old) (is_err result) }
        ensures spent { OnOk result (life self.new ≡ spent (life self.old)) }
        ensures life { OnErr result (life self.new ≡ life self.old) };

    /// Behind an Ok a crash leaves what a read gives, and nothing else; an `Err` settles nothing.
    fn sync(&mut self) -> Result<(), DiskFailed>
        ensures bytes { OnOk result (bytes self.new ≡ bytes self.old) }
        ensures durable { OnOk result (Only (bytes self.new) (may_leave self.new)) }
        ensures settled { OnOk result (settled self.new ≡ bytes self.new) }
        ensures unsettled { OnErr result (settled self.new ≡ settled self.old) }
        ensures images { NoMore (may_leave self.old) (may_leave self.new) }
        ensures count { CountsFaults result (faults self.old) (faults self.new) }
        ensures lives { Lives (life self.old) (is_err result) }
        ensures spent { OnOk result (life self.new ≡ spent (life self.old)) }
        ensures life { OnErr result (life self.new ≡ life self.old) };

    /// What a read gives is one of the images.
    ghost bytes_may_stay: { (disk : Self) → may_leave disk (bytes disk) };

    /// So is what the last sync left.
    ghost settled_may_stay: { (disk : Self) → may_leave disk (settled disk) };
}
