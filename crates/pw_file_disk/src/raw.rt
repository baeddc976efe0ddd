ghost use Rattle.std.specs.Prelude.{◌≡◌, ℕ, List, take, OnErr, OnOk};
ghost use Rattle.pw_volume.specs.Crash.{IsWithin, written};

use pw_volume::fault::DiskFailed;

/// A file of the system that is open. What it has is told by the calls of it alone, so whoever says that a call was made
/// has made it. Each call takes the bytes that the file is to have behind it, `all`, which contracts alone read. The trait
/// lacks the parent `Send`, which a method of another trait cannot hand on.
pub trait RawFile: Drop {
    /// What it has, by the calls that went well.
    ghost has: { Self → List ℕ };

    /// What it had at its last sync that went well.
    ghost synced: { Self → List ℕ };

    /// Writes the piece, and all of it.
    fn write(&mut self, at: u64, piece: &[u8], all: &Vec<u8>) -> Result<(), DiskFailed>
        requires within { IsWithin at (has self.old) }
        requires all { all.now.items ≡ written at piece.now (has self.old) }
        ensures has { OnOk result (has self.new ≡ all.now.items) }
        ensures synced { synced self.new ≡ synced self.old };

    /// Keeps the first `length` bytes.
    fn cut(&mut self, length: u64, all: &Vec<u8>) -> Result<(), DiskFailed>
        requires within { IsWithin length (has self.old) }
        requires all { all.now.items ≡ take length (has self.old) }
        ensures has { OnOk result (has self.new ≡ all.now.items) }
        ensures synced { synced self.new ≡ synced self.old };

    /// Hands what it has to the device, its length too.
    fn sync(&mut self, all: &Vec<u8>) -> Result<(), DiskFailed>
        requires all { all.now.items ≡ has self.old }
        ensures has { has self.new ≡ has self.old }
        ensures synced { OnOk result (synced self.new ≡ all.now.items) }
        ensures unsynced { OnErr result (synced self.new ≡ synced self.old) };
}
