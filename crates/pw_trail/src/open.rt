ghost use Rattle.std.specs.Prelude.{◌≡◌, ◌⊎◌, ℕ, ◌≤◌, List, false, Err, IfErr, IfOk};
ghost use Rattle.pw_base.specs.Outside.{Rose};
ghost use Rattle.pw_code.specs.Valid.{IsValid};
ghost use Rattle.pw_tmf.specs.Starting.{told_at_start};
ghost use Rattle.pw_tmf.specs.Tmf.{told_of};
ghost use Rattle.pw_volume.specs.Life.{Endless};
ghost use Rattle.pw_trail.specs.Format.{units_in};
ghost use Rattle.pw_trail.specs.Restoring.{IsReadBack};

use crate::fault::OpenFault;
use crate::log::TrailLog;
use crate::restore::Restoring;
use pw_base::list::List;
use pw_base::memory::Memory;
use pw_code::copies::Duplicate;
use pw_code::file::FileInfo;
use pw_code::system::System;
use pw_tmf::tmf::Tmf;
use pw_volume::disk::Disk;
use std::alloc::Global;

/// The system's files, and its records in a `Tmf`.
fn at_start(alloc: Global, system: &System) -> Result<(List<FileInfo>, Tmf), Memory>
    requires { IsValid system.now }
    ensures files { IfOk result (λ both. both.0 ≡ system.now.files) }
    ensures told { IfOk result (λ both. told_of both.1 ≡ told_at_start system.now) }
{
    let files = system.files.copy(alloc)?;
    Ok((files, Tmf::new(alloc, system)?))
}

/// Opens the trail on a disk: its log, and the records of the system after the changes of its units, where no unit is
/// open and none has ended. A crash inside leaves the same units.
pub fn open<D: Disk>(
    alloc: Global,
    disk: D,
    system: &System,
) -> Result<(TrailLog<D>, Tmf), (D, OpenFault)>
    requires { IsValid system.now }
    ensures log { IfOk result (λ both. (both.0.is_broken ≡ false) × (both.0.files ≡ system.now.files)
        × (units_in system.now.files (D.bytes both.0.disk) ≡ units_in system.now.files (D.bytes disk))) }
    ensures tmf { IfOk result (λ both.
        IsReadBack system.now (units_in system.now.files (D.bytes disk)) (told_of both.1)) }
    ensures images { IfOk result (λ both. (image : List ℕ) → D.may_leave both.0.disk image
        → D.may_leave disk image ⊎ (units_in system.now.files image ≡ units_in system.now.files (D.bytes disk))) }
    ensures images_err { IfErr result (λ error. (image : List ℕ) → D.may_leave error.0 image
        → D.may_leave disk image ⊎ (units_in system.now.files image ≡ units_in system.now.files (D.bytes disk))) }
    ensures damaged { IfErr result (λ error. (at : ℕ) → error.1 ≡ OpenFault.Damaged at
        → units_in system.now.files (D.bytes disk) ≡ Err at) }
    ensures count { IfOk result (λ both. D.faults disk ≤ D.faults both.0.disk) }
    ensures count_err { IfErr result (λ error. D.faults disk ≤ D.faults error.0) }
    ensures failed { IfErr result (λ error. error.1 ≡ OpenFault.Failed
        → Rose (D.faults disk) (D.faults error.0)) }
    ensures endless { IfOk result (λ both. D.life disk ≡ Endless → D.life both.0.disk ≡ Endless) }
    ensures never { IfErr result (λ error. D.life disk ≡ Endless → error.1 ≡ OpenFault.Failed → ⊥) }
{
    let Ok((files, tmf)) = at_start(alloc, system) else {
        return Err((disk, OpenFault::Memory));
    };
    let mut into = Restoring { system, tmf };
    match TrailLog::open(alloc, disk, files, &mut into) {
        Ok(log) => {
            let Restoring { tmf, .. } = into;
            Ok((log, tmf))
        }
        Err(refused) => Err(refused),
    }
}
