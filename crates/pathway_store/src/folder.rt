//! A call over the folder of a store.

ghost use Rattle.std.specs.Prelude.{[]};

use crate::answers::{
    StoreAnswer, StorePart, TrailDisk, of_damage, of_disk, of_fault, of_opening, of_status, plain,
};
use crate::opened::{OpenStore, StoreNotOpened, open_store};
use crate::words::StoreWords;
use pw_base::bytes::Bytes;
use pw_base::fault::{Fault, Refusal};
use pw_base::fault_code::FaultCode;
use pw_base::memory::Memory;
use pw_base::source::Source;
use pw_base::write_sink::WriteSink;
use pw_code::system::System;
use pw_compiled_deck::deck::read;
use pw_file_disk::fault::OpenFailed;
use pw_file_disk::folder::HostFolder;
use pw_group_commit::follower::{Follower, NoFollower};
use pw_group_commit::lines::{LineFault, LineFollower};
use pw_input_output::input::read_input;
use pw_input_output::status::Status;
use pw_store_runs::asked::FollowedRun;
use pw_store_runs::ending::{StoreFault, Stored};
use pw_store_runs::store::run_stored;
use pw_workers::gate::NoGate;
use std::alloc::Global;
use std::io::Stdout;
use std::marker::Brand;
use std::sync::Wait;
use std::thread::Threads;

/// Why a call has no text of its own.
#[derive(Drop)]
enum StoreCallFault {
    /// The source failed, or memory ran out.
    Status(Status),
    /// The folder is in use, or could not be opened.
    Folder(OpenFailed),
    /// The store in it was not opened.
    Opening(StoreNotOpened),
    /// The deck was not run.
    Store(StoreFault<TrailDisk>),
    /// The disk failed in the run.
    Disk(TrailDisk),
}

/// A deck without a fault.
#[derive(Drop)]
struct OwnDeck {
    bytes: Bytes,
    /// The names of its terminals.
    terminals: Vec<Bytes>,
}

/// Runs the deck of the source over the store in a folder: what the call answers. Where the words say so, each unit is told
/// on standard output once it is settled. It may wait for a thread.
pub fn run_in_folder<S: Source, R: Threads + Wait + Sync>(
    rt: &R,
    host: &HostRuntime,
    words: &StoreWords,
    source: &mut S,
) -> StoreAnswer {
    let alloc = host.alloc();
    let told = match run_deck(rt, host, alloc, words, source) {
        Ok((number, text)) => Ok(plain(alloc, number, text)),
        Err(fault) => of_call_fault(alloc, fault),
    };
    match told {
        Ok(told) => told,
        Err(Memory) => of_status(alloc, Status::Memory),
    }
}

/// The answer of a call that has no text of its own.
fn of_call_fault(alloc: Global, fault: StoreCallFault) -> Result<StoreAnswer, Memory> {
    match fault {
        StoreCallFault::Status(status) => Ok(of_status(alloc, status)),
        StoreCallFault::Folder(failed) => of_opening(alloc, StorePart::Folder, failed),
        StoreCallFault::Opening(StoreNotOpened::Opening(part, failed)) => {
            of_opening(alloc, part, failed)
        }
        StoreCallFault::Opening(StoreNotOpened::Damaged(part)) => of_damage(alloc, part),
        StoreCallFault::Opening(StoreNotOpened::DamagedAt(at)) => {
            of_fault(alloc, StoreFault::Damaged { at })
        }
        StoreCallFault::Opening(StoreNotOpened::Disk(_failed)) => {
            Ok(of_status(alloc, Status::DiscFault))
        }
        StoreCallFault::Opening(StoreNotOpened::Memory) => Err(Memory),
        StoreCallFault::Store(fault) => of_fault(alloc, fault),
        StoreCallFault::Disk(disk) => of_disk(alloc, &disk),
    }
}

/// The exit status and the text, or why there is no report.
fn run_deck<S: Source, R: Threads + Wait + Sync>(
    rt: &R,
    host: &HostRuntime,
    alloc: Global,
    words: &StoreWords,
    source: &mut S,
) -> Result<(u8, Bytes), StoreCallFault> {
    let OwnDeck { bytes, terminals } = deck_of(alloc, source)?;
    if !words.follow {
        let (number, text, _nobody) = run_followed(
            rt,
            host,
            alloc,
            words,
            bytes.as_slice(),
            NoFollower,
        )?;
        return Ok((number, text));
    }
    let sink = WriteSink::new(host.stdout());
    let follower = LineFollower::<WriteSink<Stdout>, Brand>::new(alloc, sink, terminals);
    let (number, text, follower) = run_followed(
        rt,
        host,
        alloc,
        words,
        bytes.as_slice(),
        follower,
    )?;
    match follower.fault() {
        None => Ok((number, text)),
        Some(LineFault::Failed) => Err(StoreCallFault::Status(Status::WriteFault)),
        Some(LineFault::Memory) => Err(StoreCallFault::Status(Status::Memory)),
    }
}

/// Runs a deck with a follower: the exit status, the text, and the follower as the run left it. The folder is locked from before
/// its first file is opened to the end of the run.
fn run_followed<F: Follower + Send, R: Threads + Wait + Sync>(
    rt: &R,
    host: &HostRuntime,
    alloc: Global,
    words: &StoreWords,
    deck: &[u8],
    follower: F,
) -> Result<(u8, Bytes, F), StoreCallFault>
    requires { F.was_told follower [] }
{
    let folder = HostFolder::open(host, alloc, words.folder.as_str()).map_err(
        StoreCallFault::Folder,
    )?;
    let OpenStore { first, trail } = open_store(host, alloc, &folder, deck).map_err(
        StoreCallFault::Opening,
    )?;
    let run = FollowedRun {
        bounds: words.bounds,
        gate: &NoGate,
        follower,
    };
    match run_stored(rt, alloc, first.as_slice(), deck, trail, run) {
        Ok(Stored::Ended(ended, text, _disk, follower)) => {
            Ok((ended.status().number(), text, follower))
        }
        Ok(Stored::Failed(disk, _follower)) => Err(StoreCallFault::Disk(disk)),
        Err(fault) => Err(StoreCallFault::Store(fault)),
    }
}

/// The deck of the source.
fn deck_of<S: Source>(alloc: Global, source: &mut S) -> Result<OwnDeck, StoreCallFault> {
    let Some(bytes) = read_input(alloc, source).map_err(StoreCallFault::Status)? else {
        return Err(StoreCallFault::Store(StoreFault::Refused(Fault {
            line: 0,
            code: FaultCode::InputTooLong,
        })));
    };
    match read(alloc, bytes.as_slice()) {
        Ok(deck) => match terminals_of(alloc, &deck.system) {
            Ok(terminals) => Ok(OwnDeck { bytes, terminals }),
            Err(Memory) => Err(StoreCallFault::Status(Status::Memory)),
        },
        Err(Refusal::At { line, code }) => Err(StoreCallFault::Store(StoreFault::Refused(Fault {
            line,
            code,
        }))),
        Err(Refusal::Memory) => Err(StoreCallFault::Status(Status::Memory)),
    }
}

/// The names of the terminals of a system.
fn terminals_of(alloc: Global, system: &System) -> Result<Vec<Bytes>, Memory> {
    let mut names = Vec::new(alloc);
    for terminal in system.terminals.as_slice() {
        names.push(Bytes::from_slice(alloc, terminal.name.as_slice())?)?;
    }
    Ok(names)
}
