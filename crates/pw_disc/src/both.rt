ghost use Rattle.std.specs.Prelude.{◌≡◌, IfErr, IfOk};
ghost use Rattle.pw_tmf.specs.Tmf.{told_of};
ghost use Rattle.pw_disc.specs.Calls.{CanMake, Makes, is_done};
ghost use Rattle.pw_disc.specs.Pair.{AreEqual};

use crate::backup::DiscBackup;
use crate::call::DiscCall;
use crate::encode::encode_call;
use crate::outcome::{DiscOutcome, make};
use pw_base::memory::Memory;
use pw_tmf::tmf::Tmf;
use std::alloc::Global;

/// A call that both members made.
#[derive(Debug, Drop)]
pub struct Made {
    pub backup: DiscBackup,
    pub of_backup: DiscOutcome,
    pub of_primary: DiscOutcome,
}

/// The backup makes a call, by its message, and then the primary does. Where memory runs out, the backup is given back if
/// it is equal to the primary still, and given up if it has made the call and the primary has not.
pub fn make_on_both(
    alloc: Global,
    primary: &mut Tmf,
    backup: DiscBackup,
    call: DiscCall,
) -> Result<Made, Option<DiscBackup>>
    requires equal { told_of backup ≡ told_of primary.old }
    requires can { CanMake (told_of primary.old) call }
    ensures backup { IfOk result (λ made. Makes made.of_backup (told_of primary.old) call (told_of made.backup)) }
    ensures primary { IfOk result (λ made. Makes made.of_primary (told_of primary.old) call (told_of primary.new)) }
    ensures equal { IfOk result (λ made. told_of made.backup ≡ told_of primary.new) }
    ensures same { IfOk result (λ made. is_done made.of_backup ≡ is_done made.of_primary) }
    ensures stays { IfErr result (λ backup. told_of primary.new ≡ told_of primary.old) }
    ensures err { IfErr result (λ backup. AreEqual primary.new backup) }
{
    let mut backup = backup;
    let Ok(message) = encode_call(alloc, &call) else {
        return Err(Some(backup));
    };
    let Ok(of_backup) = backup.receive(alloc, message.as_slice()) else {
        return Err(Some(backup));
    };
    match make(primary, call) {
        Ok(of_primary) => Ok(Made {
            backup,
            of_backup,
            of_primary,
        }),
        Err(Memory) => Err(None),
    }
}
