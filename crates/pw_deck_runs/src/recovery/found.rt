//! What is found again behind a crash.

ghost use Rattle.std.specs.Prelude.{◌≡◌, IfOk};
ghost use Rattle.pw_code.specs.Valid.{IsValid};
ghost use Rattle.pw_report_text.specs.Listing.{files_part};
ghost use Rattle.pw_tmf.specs.Committed.{committed};
ghost use Rattle.pw_tmf.specs.Tmf.{told_of};

use crate::recovery::opened::opened;
use pw_base::bytes::Bytes;
use pw_base::list::List;
use pw_base::memory::Memory;
use pw_code::system::System;
use pw_report_text::listing::files_part;
use pw_tmf::disc::Disc;
use pw_trail::trail::Trail;
use pw_volume::mem_disk::MemDisk;
use std::alloc::Global;

/// Crashes the disk of a trail of a system, which loses all since its last sync, opens the trail again,
/// and lists the records that it finds. They are the committed ones.
pub fn found(alloc: Global, system: &System, trail: Trail<MemDisk>) -> Result<Bytes, Memory>
    requires valid { IsValid system.now }
    requires files { trail.log.files ≡ system.now.files }
    ensures { IfOk result (λ text. text ≡ files_part system.now (committed (told_of trail.tmf))) }
{
    let Ok(disk) = trail.close().crash(alloc, false) else {
        return Err(Memory);
    };
    let found = opened(alloc, disk, system)?;
    listed(alloc, system, &found)
}

/// The FILES part of the committed records of a trail.
fn listed(alloc: Global, system: &System, trail: &Trail<MemDisk>) -> Result<Bytes, Memory>
    requires valid { IsValid system.now }
    requires files { trail.now.log.files ≡ system.now.files }
    ensures { IfOk result (λ text. text ≡ files_part system.now (committed (told_of trail.now.tmf))) }
{
    let mut files = Vec::new(alloc);
    for file in 0..system.files.len() as u32 {
        files.push(List::from_vec(trail.committed(alloc, file)?))?;
    }
    files_part(alloc, system, files.as_slice())
}
