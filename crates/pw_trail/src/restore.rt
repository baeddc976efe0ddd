ghost use Rattle.std.specs.Prelude.{◌≡◌, true, OnErr, OnOk};
ghost use Rattle.pw_tmf.specs.Tmf.{told_of};
ghost use Rattle.pw_trail.specs.Body.{fits};
ghost use Rattle.pw_trail.specs.Files.{with_change};
ghost use Rattle.pw_trail.specs.Restoring.{HasFiles};

use crate::changes::{Change, ChangeKind, UnitChanges};
use crate::recover::Recovery;
use pw_base::bytes::Bytes;
use pw_base::memory::Memory;
use pw_code::system::System;
use pw_tmf::tmf::Tmf;

/// The records of a system's files, in which the changes of a trail's units are made as they are read.
#[derive(Drop)]
pub struct Restoring<'a> {
    pub system: &'a System,
    pub tmf: Tmf,
    ghost of: { HasFiles system.now.files (told_of tmf) },
}

/// Makes one change for good. An `Err` leaves all that is told.
fn restore(tmf: &mut Tmf, system: &System, change: &Change) -> Result<(), Memory>
    requires fits { fits system.now.files change.now ≡ true }
    requires of { HasFiles system.now.files (told_of tmf.old) }
    ensures ok { OnOk result (told_of tmf.new ≡ record (told_of tmf.old) {
      files = with_change (told_of tmf.old).key_length (told_of tmf.old).files change.now;
    }) }
    ensures err { OnErr result (told_of tmf.new ≡ told_of tmf.old) }
{
    let _files = system.files.as_slice();
    let alloc = change.bytes.allocator();
    let bytes = change.bytes.copy(alloc)?;
    match change.kind {
        ChangeKind::Put => tmf.restore(change.file, Bytes::new(alloc), Some(bytes)),
        ChangeKind::Remove => tmf.restore(change.file, bytes, None),
    }
}

impl Recovery for Restoring<'_> {
    ghost use Rattle.pw_trail.specs.Restoring.{IsRestored};

    ghost system = { λ own. own.system.now };

    ghost taken = { λ own units. IsRestored own.system.now units (told_of own.tmf) };

    fn take(&mut self, unit: &UnitChanges) -> Result<(), Memory> {
        for change in unit.changes.as_slice() {
            restore(&mut self.tmf, self.system, change)?;
        }
        Ok(())
    }
}
