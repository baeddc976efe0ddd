//! The exit statuses and lines of a call that are no report's (docs/guide/STORE.md).

use pw_base::bytes::Bytes;
use pw_base::fault::Fault;
use pw_base::memory::Memory;
use pw_file_disk::fault::{FileFailure, OpenFailed};
use pw_file_disk::file_disk::FileDisk;
use pw_file_disk::host::HostFile;
use pw_input_output::status::Status;
use pw_store_runs::ending::StoreFault;
use pw_summed_disk::summed_disk::SummedDisk;
use pw_words::texts::refusal_text;
use std::alloc::Global;

/// The line that is written where the words say nothing.
pub const USAGE: &[u8] = b"USAGE: pathway_store FOLDER [--workers N] [--events N] [--follow]\n";

/// The status where the folder is in use.
pub const IN_USE: u8 = 10;

/// The status where the folder, or a file of it, could not be read or written.
pub const NOT_OPENED: u8 = 11;

/// The status where the deck's files have other names or keys than the store's.
pub const OTHER_FILES: u8 = 12;

/// The status where the store is damaged.
pub const DAMAGED: u8 = 13;

/// The disk of a trail.
pub type TrailDisk = SummedDisk<FileDisk<HostFile>>;

/// What a call answers: its exit status, what standard output gets, and what standard error gets, which may be nothing.
#[derive(Drop)]
pub struct StoreAnswer {
    pub number: u8,
    pub text: Bytes,
    pub cause: Bytes,
}

/// A file of a store.
#[derive(Clone, Copy, Debug, PartialEq, Eq)]
pub enum StorePart {
    Folder,
    Deck,
    Trail,
}

impl StorePart {
    /// Its name in the folder.
    pub fn name(self) -> &'static str {
        match self {
            StorePart::Folder => ".",
            StorePart::Deck => "deck",
            StorePart::Trail => "trail",
        }
    }
}

/// An answer without a cause.
pub fn plain(alloc: Global, number: u8, text: Bytes) -> StoreAnswer {
    StoreAnswer {
        number,
        text,
        cause: Bytes::new(alloc),
    }
}

/// The answer of a status that writes nothing to standard output.
pub fn of_status(alloc: Global, status: Status) -> StoreAnswer {
    plain(alloc, status.number(), Bytes::new(alloc))
}

/// The answer of a fault of the trail's disk: the call that failed, and why, where it was one of the system's.
pub fn of_disk(alloc: Global, disk: &TrailDisk) -> Result<StoreAnswer, Memory> {
    let answer = of_status(alloc, Status::DiscFault);
    match disk.disk.failure() {
        None => Ok(answer),
        Some(failure) => with_cause(alloc, answer, StorePart::Trail, failure),
    }
}

/// The answer of a fault.
pub fn of_fault(alloc: Global, fault: StoreFault<TrailDisk>) -> Result<StoreAnswer, Memory> {
    match fault {
        StoreFault::Refused(fault) => Ok(plain(
            alloc,
            Status::Refused.number(),
            fault_line(alloc, fault)?,
        )),
        StoreFault::NoStore => of_damage(alloc, StorePart::Deck),
        StoreFault::OtherFiles => line_of(alloc, OTHER_FILES, b"STORE HAS OTHER FILES\n"),
        StoreFault::Damaged { at } => {
            let text = format!(in alloc; "STORE DAMAGED AT {at}\n")?;
            line_of(alloc, DAMAGED, text.as_bytes())
        }
        StoreFault::Failed(disk) => of_disk(alloc, &disk),
        StoreFault::Memory => Err(Memory),
    }
}

/// The answer where a file of the store is damaged, or is not there though the other one is.
pub fn of_damage(alloc: Global, part: StorePart) -> Result<StoreAnswer, Memory> {
    match part {
        StorePart::Deck => line_of(alloc, DAMAGED, b"STORE DAMAGED: DECK\n"),
        _ => line_of(alloc, DAMAGED, b"STORE DAMAGED: TRAIL\n"),
    }
}

/// The answer where a file of the store was not opened.
pub fn of_opening(
    alloc: Global,
    part: StorePart,
    failed: OpenFailed,
) -> Result<StoreAnswer, Memory> {
    match failed {
        OpenFailed::InUse => line_of(alloc, IN_USE, b"STORE IN USE\n"),
        OpenFailed::Memory => Err(Memory),
        OpenFailed::NoFile => line_of(alloc, NOT_OPENED, b"STORE FAILED: IT IS NO FILE\n"),
        OpenFailed::System(failure) => {
            let text = format!(in alloc; "STORE FAILED: {}\n", failure.error)?;
            let answer = line_of(alloc, NOT_OPENED, text.as_bytes())?;
            with_cause(alloc, answer, part, failure)
        }
    }
}

/// The line that tells a deck's first fault: its line, its code and its text.
pub fn fault_line(alloc: Global, fault: Fault) -> Result<Bytes, Memory> {
    let Fault { line, code } = fault;
    let words = format!(in alloc; "DECK FAULT LINE {line} CODE {} ", code.number())?;
    let mut text = Bytes::from_slice(alloc, words.as_bytes())?;
    text.extend(refusal_text(code))?;
    text.push(b'\n')?;
    Ok(text)
}

/// An answer with the call of the system that failed, and why.
fn with_cause(
    alloc: Global,
    answer: StoreAnswer,
    part: StorePart,
    failure: FileFailure,
) -> Result<StoreAnswer, Memory> {
    let FileFailure { action, error } = failure;
    let line = format!(in alloc; "pathway_store: cannot {action} {}: {error}\n", part.name())?;
    let cause = Bytes::from_slice(alloc, line.as_bytes())?;
    Ok(StoreAnswer { cause, ..answer })
}

/// An answer of one line.
fn line_of(alloc: Global, number: u8, text: &[u8]) -> Result<StoreAnswer, Memory> {
    Ok(plain(alloc, number, Bytes::from_slice(alloc, text)?))
}
