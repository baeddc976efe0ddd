ghost use Rattle.std.specs.Prelude.{◌≡◌, ◌⊎◌, ℕ, ◌+◌, ◌^◌, ◌<◌, ◌≤◌, List, [], ◌∷◌, ◌++◌, Some, None, Ok, Err, true, length, All, IfOk, OnOk, IsErrOf};
ghost use Rattle.pw_base.specs.Outside.{Rose};
ghost use Rattle.pw_code.specs.declared.system.System.{System};
ghost use Rattle.pw_volume.specs.Crash.{NoMore, Only};
ghost use Rattle.pw_volume.specs.Life.{Endless};
ghost use Rattle.pw_trail.specs.Body.{fits, unit_in};
ghost use Rattle.pw_trail.specs.Format.{units_in};
ghost use Rattle.pw_trail.specs.Stored.{HasTakenOne, IsTrailRead, IsRecovered};
ghost use Rattle.pw_trail.specs.declared.changes.UnitChanges.{UnitChanges};

use crate::changes::UnitChanges;
use crate::fault::OpenFault;
use crate::piece::{TrailPiece, read_piece};
use crate::read::read_unit;
use crate::synced::Synced;
use pw_base::memory::Memory;
use pw_code::file::FileInfo;
use pw_image::fault::BytesFault;
use pw_volume::disk::Disk;
use std::alloc::Global;

/// What takes the units of a trail as they are read, in their order.
pub trait Recovery {
    /// The system whose files they change.
    ghost system: { Self → System };

    /// These units were taken.
    ghost taken: { Self → List UnitChanges → Type 0 };

    /// Takes the next unit.
    fn take(&mut self, unit: &UnitChanges) -> Result<(), Memory>
        requires { All (λ change. fits (system self.old).files change ≡ true) unit.now.changes }
        ensures ok { OnOk result ((units : List UnitChanges)
            → taken self.old units → taken self.new (units ++ unit.now ∷ [])) }
        ensures system { system self.new ≡ system self.old };
}

/// Hands on the unit of a record's body whose gate is at a place.
fn take_unit<R: Recovery>(
    alloc: Global,
    files: &[FileInfo],
    body: &[u8],
    at: u64,
    into: &mut R,
) -> Result<(), OpenFault>
    requires { (R.system into.old).files ≡ files.now }
    ensures ok { OnOk result (HasTakenOne (unit_in files.now body.now) (R.taken into.old) (R.taken into.new)) }
    ensures system { R.system into.new ≡ R.system into.old }
    ensures damaged { (place : ℕ) → IsErrOf result (OpenFault.Damaged place)
        → (place ≡ at) × (unit_in files.now body.now ≡ None) }
    ensures failed { IsErrOf result OpenFault.Failed → ⊥ }
{
    match read_unit(alloc, files, body) {
        Ok(unit) => {
            into.take(&unit)?;
            Ok(())
        }
        Err(BytesFault::Bad) => Err(OpenFault::Damaged { at }),
        Err(BytesFault::Memory) => Err(OpenFault::Memory),
    }
}

/// Reads the units of the trail on a disk of this length, and hands each on: the place of the zero gate. It changes
/// nothing on the disk.
fn read_units<D: Disk, R: Recovery>(
    alloc: Global,
    disk: &mut D,
    files: &[FileInfo],
    total: u64,
    into: &mut R,
) -> Result<u64, OpenFault>
    requires files { (R.system into.old).files ≡ files.now }
    requires total { total ≡ length (D.bytes disk.old) }
    requires none { R.taken into.old [] }
    ensures found { IfOk result (λ end. IsTrailRead files.now (D.bytes disk.old) (R.taken into.new) end) }
    ensures system { R.system into.new ≡ R.system into.old }
    ensures small { IfOk result (λ end. end + 1 < 2 ^ 64) }
    ensures bytes { D.bytes disk.new ≡ D.bytes disk.old }
    ensures images { NoMore (D.may_leave disk.old) (D.may_leave disk.new) }
    ensures damaged { (at : ℕ) → IsErrOf result (OpenFault.Damaged at)
        → units_in files.now (D.bytes disk.old) ≡ Err at }
    ensures count { D.faults disk.old ≤ D.faults disk.new }
    ensures failed { IsErrOf result OpenFault.Failed → Rose (D.faults disk.old) (D.faults disk.new) }
    ensures life { D.life disk.new ≡ D.life disk.old }
    ensures never { D.life disk.old ≡ Endless → IsErrOf result OpenFault.Failed → ⊥ }
{
    let mut at = 0;
    loop {
        match read_piece(alloc, disk, at, total)? {
            TrailPiece::End => return Ok(at),
            TrailPiece::Broken => return Err(OpenFault::Damaged { at }),
            TrailPiece::Body(body) => {
                take_unit(alloc, files, &body, at, into)?;
                at += 5 + body.len() as u64;
            }
        }
    }
}

/// Syncs a disk, reads the units of the trail on it, hands each on, and cuts what stands behind the zero gate, whose
/// place it answers. A crash inside leaves the same units.
pub fn recover<D: Disk, R: Recovery>(
    alloc: Global,
    disk: &mut D,
    files: &[FileInfo],
    into: &mut R,
) -> Result<u64, OpenFault>
    requires files { (R.system into.old).files ≡ files.now }
    requires none { R.taken into.old [] }
    ensures recovered { IfOk result (λ end. IsRecovered files.now (D.bytes disk.old) (R.taken into.new)
        (D.bytes disk.new) (D.may_leave disk.new) end) }
    ensures system { R.system into.new ≡ R.system into.old }
    ensures images { (image : List ℕ) → D.may_leave disk.new image
        → D.may_leave disk.old image ⊎ (units_in files.now image ≡ units_in files.now (D.bytes disk.old)) }
    ensures damaged { (at : ℕ) → IsErrOf result (OpenFault.Damaged at)
        → units_in files.now (D.bytes disk.old) ≡ Err at }
    ensures count { D.faults disk.old ≤ D.faults disk.new }
    ensures failed { IsErrOf result OpenFault.Failed → Rose (D.faults disk.old) (D.faults disk.new) }
    ensures endless { D.life disk.old ≡ Endless → D.life disk.new ≡ Endless }
    ensures never { D.life disk.old ≡ Endless → IsErrOf result OpenFault.Failed → ⊥ }
{
    disk.sync()?;
    let total = disk.length()?;
    let end = read_units(alloc, disk, files, total, into)?;
    disk.cut_synced(end + 1)?;
    Ok(end)
}
