ghost use Rattle.std.specs.Prelude.{◌≡◌, ℕ, ◌+◌, ◌≤◌, Some, drop, take, length, option_map, IfOk, IsErrOf};
ghost use Rattle.pw_base.specs.Outside.{Rose};
ghost use Rattle.pw_volume.specs.Crash.{NoMore};
ghost use Rattle.pw_volume.specs.Life.{Endless};
ghost use Rattle.pw_trail.specs.Format.{body_in};
ghost use Rattle.pw_trail.specs.Stored.{piece_in, seen};

use crate::fault::OpenFault;
use pw_volume::disk::Disk;
use std::alloc::Global;

/// What stands at a gate of a trail.
#[derive(Debug, Drop)]
pub enum TrailPiece {
    /// A zero gate.
    End,
    /// A record with this body.
    Body(Vec<u8>),
    /// Neither.
    Broken,
}

/// Reads what stands at a gate, of a disk of this length. It changes nothing.
pub fn read_piece<D: Disk>(
    alloc: Global,
    disk: &mut D,
    at: u64,
    total: u64,
) -> Result<TrailPiece, OpenFault>
    requires total { total ≡ length (D.bytes disk.old) }
    requires within { at ≤ length (D.bytes disk.old) }
    ensures piece { IfOk result (λ piece. seen piece ≡ piece_in (drop at (D.bytes disk.old))) }
    ensures bytes { D.bytes disk.new ≡ D.bytes disk.old }
    ensures images { NoMore (D.may_leave disk.old) (D.may_leave disk.new) }
    ensures count { D.faults disk.old ≤ D.faults disk.new }
    ensures failed { IsErrOf result OpenFault.Failed → Rose (D.faults disk.old) (D.faults disk.new) }
    ensures damaged { (place : ℕ) → IsErrOf result (OpenFault.Damaged place) → ⊥ }
    ensures life { D.life disk.new ≡ D.life disk.old }
    ensures never { D.life disk.old ≡ Endless → IsErrOf result OpenFault.Failed → ⊥ }
{
    if at == total {
        return Ok(TrailPiece::Broken);
    }
    let mut gate = [0u8; 1];
    disk.read(at, &mut gate)?;
    if gate[0] == 0 {
        return Ok(TrailPiece::End);
    }
    read_record(alloc, disk, at + 1, total)
}

/// Reads the body of the record whose gate stands before a place, of a disk of this length. It changes nothing.
fn read_record<D: Disk>(
    alloc: Global,
    disk: &mut D,
    at: u64,
    total: u64,
) -> Result<TrailPiece, OpenFault>
    requires total { total ≡ length (D.bytes disk.old) }
    requires within { at ≤ length (D.bytes disk.old) }
    ensures piece { IfOk result (λ piece. seen piece ≡ option_map Some (body_in (drop at (D.bytes disk.old)))) }
    ensures bytes { D.bytes disk.new ≡ D.bytes disk.old }
    ensures images { NoMore (D.may_leave disk.old) (D.may_leave disk.new) }
    ensures count { D.faults disk.old ≤ D.faults disk.new }
    ensures failed { IsErrOf result OpenFault.Failed → Rose (D.faults disk.old) (D.faults disk.new) }
    ensures damaged { (place : ℕ) → IsErrOf result (OpenFault.Damaged place) → ⊥ }
    ensures life { D.life disk.new ≡ D.life disk.old }
    ensures never { D.life disk.old ≡ Endless → IsErrOf result OpenFault.Failed → ⊥ }
{
    let behind = total - at;
    if behind < 4 {
        return Ok(TrailPiece::Broken);
    }
    let mut size = [0u8; 4];
    disk.read(at, &mut size)?;
    let size = u64::from(u32::from_be_bytes(size));
    if behind - 4 < size {
        return Ok(TrailPiece::Broken);
    }
    let body = read_bytes(alloc, disk, at + 4, size as usize)?;
    Ok(TrailPiece::Body(body))
}

/// Reads so many bytes from a place on. It changes nothing.
fn read_bytes<D: Disk>(
    alloc: Global,
    disk: &mut D,
    at: u64,
    count: usize,
) -> Result<Vec<u8>, OpenFault>
    requires { at + count ≤ length (D.bytes disk.old) }
    ensures read { IfOk result (λ read. read.items ≡ take count (drop at (D.bytes disk.old))) }
    ensures bytes { D.bytes disk.new ≡ D.bytes disk.old }
    ensures images { NoMore (D.may_leave disk.old) (D.may_leave disk.new) }
    ensures count { D.faults disk.old ≤ D.faults disk.new }
    ensures failed { IsErrOf result OpenFault.Failed → Rose (D.faults disk.old) (D.faults disk.new) }
    ensures damaged { (place : ℕ) → IsErrOf result (OpenFault.Damaged place) → ⊥ }
    ensures life { D.life disk.new ≡ D.life disk.old }
    ensures never { D.life disk.old ≡ Endless → IsErrOf result OpenFault.Failed → ⊥ }
{
    let mut read = vec![in alloc; 0u8; count]?;
    disk.read(at, &mut read)?;
    Ok(read)
}
