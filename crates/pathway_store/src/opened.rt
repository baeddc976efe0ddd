//! The two files of a store, as a call finds or makes them.

use crate::answers::{StorePart, TrailDisk};
use pw_base::bytes::Bytes;
use pw_base::memory::Memory;
use pw_file_disk::fault::OpenFailed;
use pw_file_disk::file_disk::FileDisk;
use pw_file_disk::folder::HostFolder;
use pw_file_disk::host::HostFile;
use pw_file_disk::open::{make, open};
use pw_summed_disk::extent::{SHUT, piece_in, seal};
use pw_summed_disk::fault::SumFault;
use pw_summed_disk::summed_disk::SummedDisk;
use pw_volume::disk::Disk;
use pw_volume::fault::DiskFailed;
use std::alloc::Global;

/// Why a store was not opened.
#[derive(Drop)]
pub enum StoreNotOpened {
    /// A call on one of its files failed.
    Opening(StorePart, OpenFailed),
    /// One of its files is damaged, or is not there though the other one is.
    Damaged(StorePart),
    /// The place of the first extent of the trail that is damaged.
    DamagedAt(u64),
    /// The disk failed.
    Disk(DiskFailed),
    /// Memory ran out.
    Memory,
}

impl From<Memory> for StoreNotOpened {
    fn from(_memory: Memory) -> StoreNotOpened {
        StoreNotOpened::Memory
    }
}

impl From<DiskFailed> for StoreNotOpened {
    fn from(failed: DiskFailed) -> StoreNotOpened {
        StoreNotOpened::Disk(failed)
    }
}

/// A store that is open.
#[derive(Drop)]
pub struct OpenStore {
    /// The bytes of the deck with which it began.
    pub first: Bytes,
    pub trail: TrailDisk,
}

/// The store in a folder. Both files are read and found whole before anything is written, and nothing is written where they are
/// there. In a folder that has neither, a store is made that begins with this deck: the trail first, which is empty, and then the deck.
pub fn open_store(
    host: &HostRuntime,
    alloc: Global,
    folder: &HostFolder,
    deck: &[u8],
) -> Result<OpenStore, StoreNotOpened> {
    let first = match opened(host, alloc, folder, StorePart::Deck)? {
        Some(disk) => Some(first_deck(alloc, disk)?),
        None => None,
    };
    let trail = opened(host, alloc, folder, StorePart::Trail)?;
    match (first, trail) {
        (Some(first), Some(trail)) => Ok(OpenStore {
            first,
            trail: summed(alloc, trail)?,
        }),
        (Some(_), None) => Err(StoreNotOpened::Damaged(StorePart::Trail)),
        (None, Some(trail)) => {
            must_be_empty(trail)?;
            new_store(host, alloc, folder, deck)
        }
        (None, None) => new_store(host, alloc, folder, deck),
    }
}

/// Refuses a trail without a deck that has more than the shut gate with which a store begins.
fn must_be_empty(mut trail: FileDisk<HostFile>) -> Result<(), StoreNotOpened> {
    if trail.length()? > SHUT.len() as u64 {
        return Err(StoreNotOpened::Damaged(StorePart::Deck));
    }
    Ok(())
}

/// A store that begins with this deck.
fn new_store(
    host: &HostRuntime,
    alloc: Global,
    folder: &HostFolder,
    deck: &[u8],
) -> Result<OpenStore, StoreNotOpened> {
    let trail = made(host, alloc, folder, StorePart::Trail, &SHUT)?;
    let sealed = seal(alloc, deck)?;
    drop(made(host, alloc, folder, StorePart::Deck, sealed.as_slice())?);
    Ok(OpenStore {
        first: Bytes::from_slice(alloc, deck)?,
        trail: summed(alloc, trail)?,
    })
}

/// The disk over a file of the store, where it is there.
fn opened(
    host: &HostRuntime,
    alloc: Global,
    folder: &HostFolder,
    part: StorePart,
) -> Result<Option<FileDisk<HostFile>>, StoreNotOpened> {
    match open(host, alloc, folder, part.name()) {
        Ok(found) => Ok(found),
        Err(failed) => Err(StoreNotOpened::Opening(part, failed)),
    }
}

/// The disk over a file of the store that is made.
fn made(
    host: &HostRuntime,
    alloc: Global,
    folder: &HostFolder,
    part: StorePart,
    bytes: &[u8],
) -> Result<FileDisk<HostFile>, StoreNotOpened> {
    match make(host, alloc, folder, part.name(), bytes) {
        Ok(disk) => Ok(disk),
        Err(failed) => Err(StoreNotOpened::Opening(part, failed)),
    }
}

/// The bytes of the deck that is sealed in the file of the first one.
fn first_deck(alloc: Global, mut disk: FileDisk<HostFile>) -> Result<Bytes, StoreNotOpened> {
    let length = disk.length()?;
    let Ok(mut bytes) = vec![in alloc; 0u8; length as usize] else {
        return Err(StoreNotOpened::Memory);
    };
    disk.read(0, bytes.as_mut_slice())?;
    match piece_in(bytes.as_slice()) {
        Some(first) => Ok(Bytes::from_slice(alloc, first)?),
        None => Err(StoreNotOpened::Damaged(StorePart::Deck)),
    }
}

/// The disk of the trail, over its file. It is refused where a sum is amiss.
fn summed(alloc: Global, file: FileDisk<HostFile>) -> Result<TrailDisk, StoreNotOpened> {
    match SummedDisk::open(alloc, file) {
        Ok(disk) => Ok(disk),
        Err((_file, fault)) => Err(of_sums(fault)),
    }
}

/// Why the disk of the trail was not opened.
fn of_sums(fault: SumFault) -> StoreNotOpened {
    match fault {
        SumFault::Damaged { at } => StoreNotOpened::DamagedAt(at),
        SumFault::Failed => StoreNotOpened::Disk(DiskFailed),
        SumFault::Memory => StoreNotOpened::Memory,
    }
}
