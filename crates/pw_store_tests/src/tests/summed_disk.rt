use pw_base::bytes::Bytes;
use pw_base::memory::Memory;
use pw_summed_disk::extent::{OPEN, SHUT, seal};
use pw_summed_disk::fault::SumFault;
use pw_summed_disk::summed_disk::SummedDisk;
use pw_volume::disk::Disk;
use pw_volume::fault::WriteFault;
use pw_volume::mem_disk::MemDisk;
use std::alloc::Global;
use std::test::Fail;

/// A summed disk over these bytes, or why it is not opened.
fn opened(alloc: Global, below: &[u8]) -> Result<Result<SummedDisk<MemDisk>, SumFault>, Fail> {
    let mut disk = MemDisk::new(alloc)?;
    disk.write_at(0, below)?;
    disk.sync()?;
    match SummedDisk::open(alloc, disk) {
        Ok(disk) => Ok(Ok(disk)),
        Err((_disk, fault)) => Ok(Err(fault)),
    }
}

/// What a read of the whole disk gives.
fn contents<D: Disk>(alloc: Global, disk: &mut D) -> Result<Vec<u8>, Fail> {
    let length = disk.length()?;
    let mut bytes = vec![in alloc; 0u8; length as usize]?;
    disk.read(0, bytes.as_mut_slice())?;
    Ok(bytes)
}

/// Writes a piece at a place, or at the end where that lies before it.
fn write_within<D: Disk>(disk: &mut D, at: u64, piece: &[u8]) -> Result<(), WriteFault> {
    let length = disk.length()?;
    disk.write_at(at.min(length), piece)
}

/// Two extents and a shut gate: 49 bytes.
fn two_pieces(alloc: Global) -> Result<Bytes, Memory> {
    let mut below = Bytes::from_slice(alloc, &OPEN)?;
    below.extend(seal(alloc, b"AB")?.as_slice())?;
    below.extend(&OPEN)?;
    below.extend(seal(alloc, b"CDE")?.as_slice())?;
    below.extend(&SHUT)?;
    Ok(below)
}

#[test]
fn a_change_of_a_byte_is_found(rt: HostRuntime) -> Result<(), Fail> {
    let alloc = rt.alloc();
    for place in 0..49 {
        let mut below = two_pieces(alloc)?.into_vec();
        let Some(byte) = below.get_mut(place) else {
            return Err("no byte".into());
        };
        *byte ^= 64;
        let found = opened(alloc, below.as_slice())?;
        let is_gate = place < 4 || (22..26).contains(&place);
        assert!(rt; is_gate == found.is_ok(), "{place}");
    }
    Ok(())
}

#[test]
fn a_piece_is_staged_and_its_gate_is_opened(rt: HostRuntime) -> Result<(), Fail> {
    let alloc = rt.alloc();
    let below = two_pieces(alloc)?;
    let Ok(mut disk) = opened(alloc, below.as_slice())? else {
        return Err("it is refused".into());
    };
    let length = disk.length()?;
    disk.cut(length)?;
    disk.sync()?;
    disk.write_at(length, b"F\0")?;
    assert!(rt; disk.write_at(0, b"\0") == Err(WriteFault::Failed));
    disk.sync()?;
    let end = length.saturating_sub(1);
    write_within(&mut disk, end, &[1])?;
    disk.sync()?;
    assert_eq!(rt;
        contents(alloc, &mut disk)?.as_slice(),
        b"\x01AB\x01CDE\x01F\0".as_slice()
    );
    Ok(())
}
