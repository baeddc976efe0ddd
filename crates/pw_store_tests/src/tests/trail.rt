ghost use Rattle.std.specs.Prelude.{◌≡◌, IfOk};
ghost use Rattle.pw_trail.specs.OneFile.{one_file};

use pw_base::bytes::Bytes;
use pw_base::list::List;
use pw_base::memory::Memory;
use pw_code::file::FileInfo;
use pw_trail::changes::UnitChanges;
use pw_trail::fault::OpenFault;
use pw_trail::log::TrailLog;
use pw_trail::recover::Recovery;
use pw_volume::disk::Disk;
use pw_volume::mem_disk::MemDisk;
use std::alloc::Global;
use std::process::Abort;
use std::test::Fail;

/// The files of a deck with one file, whose keys have 2 characters.
fn one_file(alloc: Global) -> Result<List<FileInfo>, Memory>
    ensures { IfOk result (λ files. files ≡ one_file) }
{
    let mut files = List::new(alloc);
    files.push(FileInfo {
        name: Bytes::from_slice(alloc, b"STOCK")?,
        key: 2,
        records: List::new(alloc),
    })?;
    Ok(files)
}

/// The numbers of the units that were taken.
#[derive(Drop)]
struct UnitNumbers {
    numbers: Vec<u32>,
}

impl Recovery for UnitNumbers {
    ghost use Rattle.std.specs.Prelude.{◌≡◌, map};
    ghost use Rattle.pw_trail.specs.OneFile.{one_file_system};
    ghost use Rattle.pw_trail.specs.declared.changes.UnitChanges.{UnitChanges};

    ghost system = { λ own. one_file_system };

    ghost taken = { λ own units. own.numbers.items ≡ map (λ (unit : UnitChanges). unit.unit) units };

    fn take(&mut self, unit: &UnitChanges) -> Result<(), Memory> {
        self.numbers.push(unit.unit)?;
        Ok(())
    }
}

/// Opens what is on a disk: the log, and the numbers of its units.
fn opened(alloc: Global, disk: MemDisk) -> Result<(TrailLog<MemDisk>, Vec<u32>), OpenFault> {
    let mut into = UnitNumbers {
        numbers: Vec::new(alloc),
    };
    match TrailLog::open(alloc, disk, one_file(alloc)?, &mut into) {
        Ok(log) => Ok((log, into.numbers)),
        Err((_disk, fault)) => Err(fault),
    }
}

/// How these bytes are read: the numbers of the first two units, 0 where there is none, or the place of the damage.
fn reading(alloc: Global, bytes: &[u8]) -> Result<String, Fail> {
    let mut disk = MemDisk::new(alloc)?;
    disk.write_at(0, bytes)?;
    match opened(alloc, disk) {
        Ok((_log, numbers)) => {
            let first = numbers.first().copied().unwrap_or(0);
            let second = numbers.get(1).copied().unwrap_or(0);
            Ok(format!(in alloc; "units {first} {second}")?)
        }
        Err(OpenFault::Damaged { at }) => Ok(format!(in alloc; "damaged at {at}")?),
        Err(fault) => Err(fault.into()),
    }
}

/// Two records, a zero byte and two bytes more. The first is of unit 1 of terminal 0, which puts a record; the second of
/// unit 2 of terminal 1, which takes it away.
const TRAIL: [u8; 60] = *b"\x01\0\0\0\x18\0\0\0\0\0\0\0\x01\0\0\0\x01\0\0\0\0\0\0\0\0\x03AAx\
    \x07\0\0\0\x17\0\0\0\x01\0\0\0\x02\0\0\0\x01\0\0\0\0\x01\0\0\0\x02AA\
    \0\x09\x09";

/// How the trail is read when it is cut behind so many bytes, for lengths from one up to another.
const CUTS: &str = "0-28|damaged at 0
29-56|damaged at 29
57-57|damaged at 57
58-60|units 1 2";

/// How the trail is read when one is added to a byte, for places from one up to another. The first record has a gate and
/// a length of 4 bytes at 0, the terminal, the unit's number and the number of changes at 5, and the file, the kind, the
/// length and the record of the change at 17. The second has the same from 29 on, and the zero gate is at 57.
const CHANGES: &str = "0-0|units 1 2
1-4|damaged at 0
5-8|units 1 2
9-9|units 16777217 2
10-10|units 65537 2
11-11|units 257 2
12-12|units 2 2
13-16|damaged at 0
17-25|damaged at 0
26-28|units 1 2
29-29|units 1 2
30-33|damaged at 29
34-37|units 1 2
38-38|units 1 16777218
39-39|units 1 65538
40-40|units 1 258
41-41|units 1 3
42-45|damaged at 29
46-54|damaged at 29
55-56|units 1 2
57-57|damaged at 57
58-59|units 1 2";

/// How the trail is read by the row that a number stands in.
fn row(rows: &'static str, number: usize) -> Result<&'static str, Fail> {
    for row in rows.split('\n') {
        let (range, expected) = row.split_once('|').ok_or("no outcome")?;
        let (from, to) = range.split_once('-').ok_or("no range")?;
        if from.parse::<usize>()? <= number && number <= to.parse()? {
            return Ok(expected);
        }
    }
    Err("no row".into())
}

/// Asserts how bytes are read.
fn expect_reading(rt: &impl Abort, alloc: Global, bytes: &[u8], wanted: &str) -> Result<(), Fail> {
    let found = reading(alloc, bytes)?;
    assert!(rt; found.as_str() == wanted, "{found}");
    Ok(())
}

#[test]
fn trail_cut_at_each_byte(rt: HostRuntime) -> Result<(), Fail> {
    for length in 0..61 {
        let front = TRAIL.get(..length).unwrap_or(&[]);
        expect_reading(&rt, rt.alloc(), front, row(CUTS, length)?)?;
    }
    Ok(())
}

#[test]
fn trail_with_each_byte_changed(rt: HostRuntime) -> Result<(), Fail> {
    for place in 0..60 {
        let mut bytes = TRAIL;
        bytes[place] = bytes[place].wrapping_add(1);
        expect_reading(&rt, rt.alloc(), &bytes, row(CHANGES, place)?)?;
    }
    Ok(())
}

#[test]
fn open_damaged_trail(rt: HostRuntime) -> Result<(), Fail> {
    expect_reading(&rt, rt.alloc(), &[1, 0, 0, 0, 1, 0], "damaged at 0")?;
    expect_reading(&rt, rt.alloc(), &[0], "units 0 0")
}
