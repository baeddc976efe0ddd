ghost use Rattle.std.specs.Prelude.{◌≡◌, ◌≢◌, ◌<◌, [], All, IfErr, IfOk, OnOk};
ghost use Rattle.std.specs.Option.{option_copied};
ghost use Rattle.pw_tmf.specs.Answers.{Foresees, Leaves, Operates, ended_unit};
ghost use Rattle.pw_tmf.specs.Committed.{committed};
ghost use Rattle.pw_tmf.specs.Operation.{IsCall, awaits};
ghost use Rattle.pw_tmf.specs.Told.{Told};
ghost use Rattle.pw_tmf.specs.Units.{HaveDistinctTerminals, CanBackOut, CanBegin, IsOpen, IsRunning, after_commit, all_backed_out, begun};

use crate::answer::{DiscFault, Ended, FileAnswer, Foreseen};
use pw_base::bytes::Bytes;
use pw_base::memory::Memory;
use pw_code::file::FileCall;
use pw_code::unit::Unit;
use std::alloc::Global;

/// What keeps the records of files, and the units that change them under locks. docs/design/STORAGE.md has the rules.
///
/// `Failed` comes only where the count of faults that is told rose, or stands at its end. Every `Err` leaves all that
/// is told but that count.
pub trait Disc: Send + Drop {
    ghost told: { Self → Told };

    /// Begins the next attempt of a unit: its first one, or one after it was backed out and stayed open.
    fn begin(&mut self, unit: &Unit) -> Result<(), DiscFault>
        requires { CanBegin (told self.old) unit.now }
        ensures ok { OnOk result (told self.new ≡ begun (told self.old) unit.now) }
        ensures err { IfErr result (λ fault. Leaves fault (told self.old) (told self.new)) };

    /// Does a file operation for a unit, under the lock that it takes.
    fn operate(&mut self, unit: &Unit, call: &FileCall) -> FileAnswer
        requires unit { IsRunning (told self.old) unit.now }
        requires call { IsCall (told self.old) call.now }
        ensures { Operates result (told self.old) unit.now call.now (told self.new) };

    /// Ends a unit with its changes, counts it, and keeps its reply, if there is one.
    fn commit(&mut self, unit: &Unit, reply: Option<Bytes>) -> Result<(), DiscFault>
        requires { IsRunning (told self.old) unit.now }
        ensures ok { OnOk result (told self.new ≡ after_commit (told self.old) unit.now reply) }
        ensures err { IfErr result (λ fault. Leaves fault (told self.old) (told self.new)) };

    /// Puts back the changes of units, all of them or none, and releases their locks. The units end where `ends` says
    /// so, and else stay open for their next attempts.
    fn back_out(&mut self, units: &[Unit], ends: bool) -> Result<(), DiscFault>
        requires some { units.now ≢ [] }
        requires apart { HaveDistinctTerminals units.now }
        requires units { All (CanBackOut ends (told self.old)) units.now }
        ensures ok { OnOk result (told self.new ≡ all_backed_out ends (told self.old) units.now) }
        ensures err { IfErr result (λ fault. Leaves fault (told self.old) (told self.new)) };

    /// The last ended unit of a terminal, None exactly where none has ended. It takes no memory.
    fn ended(&self, terminal: u32) -> Option<&Ended>
        requires { terminal < (told self.now).terminals }
        ensures { option_copied result ≡ ended_unit ((told self.now).ended terminal) };

    /// The committed records of a file, in the order of their keys.
    fn committed(&self, alloc: Global, file: u32) -> Result<Vec<Bytes>, Memory>
        requires { file < (told self.now).file_count }
        ensures { IfOk result (λ records. records.items ≡ committed (told self.now) file) };

    /// Whether the lock that the operation would take for a unit now conflicts with a lock of another unit.
    fn awaits(&self, unit: &Unit, call: &FileCall, holder: &Unit) -> Result<bool, Memory>
        requires unit { IsOpen (told self.now) unit.now }
        requires call { IsCall (told self.now) call.now }
        requires holder { IsOpen (told self.now) holder.now }
        requires apart { unit.now.terminal ≢ holder.now.terminal }
        ensures { IfOk result (λ awaits_it. awaits_it ≡ awaits (told self.now) unit.now call.now holder.now) };

    /// What `operate` would answer now, without doing it and without the record that it reads.
    fn foresee(&self, unit: &Unit, call: &FileCall) -> Result<Foreseen, Memory>
        requires unit { IsRunning (told self.now) unit.now }
        requires call { IsCall (told self.now) call.now }
        ensures { IfOk result (λ foreseen. Foresees foreseen (told self.now) unit.now call.now) };
}
