ghost use Rattle.std.specs.Prelude.{◌≡◌, ℕ, ◌+◌, ◌^◌, ◌<◌, ◌≤◌, false, Ok, Err, IfErr, IfOk, OnErr, OnOk, IsErrOf};
ghost use Rattle.pw_base.specs.Outside.{Rose};
ghost use Rattle.pw_volume.specs.Crash.{NoMore, Only};
ghost use Rattle.pw_summed_disk.specs.Extents.{content_of};
ghost use Rattle.pw_summed_disk.specs.Summed.{IsSummedFile};

use crate::fault::SumFault;
use crate::plan::{Behind, DiskStanding};
use crate::read::{ReadContent, read_content};
use crate::summed_disk::SummedDisk;
use pw_volume::disk::Disk;
use std::alloc::Global;

impl<P: Disk> SummedDisk<P> {
    /// Opens the summed disk that another one has below. It changes nothing there, and refuses what is damaged, with the place
    /// of the first extent that is.
    pub fn open(alloc: Global, mut disk: P) -> Result<SummedDisk<P>, (P, SumFault)>
        ensures opened { IfOk result (λ summed. (content_of (P.bytes disk) ≡ Ok summed.bytes.items)
            × (P.bytes summed.disk ≡ P.bytes disk) × (summed.is_broken ≡ false)) }
        ensures images { IfOk result (λ summed. NoMore (P.may_leave disk) (P.may_leave summed.disk)) }
        ensures damaged { IfErr result (λ error. (at : ℕ) → error.1 ≡ SumFault.Damaged at
            → content_of (P.bytes disk) ≡ Err at) }
        ensures images_err { IfErr result (λ error. NoMore (P.may_leave disk) (P.may_leave error.0)) }
        ensures count { IfErr result (λ error. P.faults disk ≤ P.faults error.0) }
        ensures failed { IfErr result (λ error. error.1 ≡ SumFault.Failed
            → Rose (P.faults disk) (P.faults error.0)) }
    {
        match read_synced(alloc, &mut disk) {
            Ok(ReadContent { bytes, end, gate }) => {
                let standing = DiskStanding {
                    end,
                    gate: gate as u64,
                    known: Behind::Unknown,
                };
                Ok(SummedDisk {
                    disk,
                    bytes,
                    standing,
                    is_synced: true,
                    is_broken: false,
                    refusals: 0,
                })
            }
            Err(fault) => Err((disk, fault)),
        }
    }
}

/// Syncs a disk, and reads the content that it has.
fn read_synced<P: Disk>(alloc: Global, disk: &mut P) -> Result<ReadContent, SumFault>
    ensures file { IfOk result (λ read. IsSummedFile read.gate read.end read.bytes.items (P.bytes disk.new)) }
    ensures small { IfOk result (λ read. read.gate + 4 < 2 ^ 64) }
    ensures bytes { OnOk result (P.bytes disk.new ≡ P.bytes disk.old) }
    ensures durable { OnOk result (Only (P.bytes disk.new) (P.may_leave disk.new)) }
    ensures images { NoMore (P.may_leave disk.old) (P.may_leave disk.new) }
    ensures damaged { (at : ℕ) → IsErrOf result (SumFault.Damaged at) → content_of (P.bytes disk.old) ≡ Err at }
    ensures count { P.faults disk.old ≤ P.faults disk.new }
    ensures failed { IsErrOf result SumFault.Failed → Rose (P.faults disk.old) (P.faults disk.new) }
{
    disk.sync()?;
    let total = disk.length()?;
    let mut below = vec![in alloc; 0u8; total as usize]?;
    disk.read(0, below.as_mut_slice())?;
    read_content(alloc, below.as_slice())
}
