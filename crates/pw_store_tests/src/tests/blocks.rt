ghost use Rattle.std.specs.Prelude.{◌≡◌, ◌≤◌, IfOk};
ghost use Rattle.pw_files.specs.Records.{IsContent};

use pw_base::bytes::Bytes;
use pw_base::memory::Memory;
use pw_blocks::block_file::BlockFile;
use pw_files::record_file::RecordFile;
use pw_files::sorted_file::SortedFile;
use std::alloc::Global;
use std::process::Abort;
use std::test::Fail;

/// Each call with a key and how many bytes the content has behind it. The table is gone through several times, each time
/// with other keys.
const CALLS: &str = "insert 40 100
insert 300 2044
insert 20 0
insert 310 3998
insert 305 1000
replace 40 3000
insert 40 1
insert 41 900
insert 42 1100
replace 300 7
replace 300 3998
remove 7 0
insert 700 500
insert 699 500
insert 698 3500
replace 699 0
remove 305 0
insert 1 2100
insert 2 2100
replace 2 20
replace 3 20
remove 20 0
remove 700 0
insert 305 60";

/// A content whose key has two bytes, with more bytes behind it.
fn content(alloc: Global, key: [u8; 2], more: usize) -> Result<Bytes, Memory>
    requires { more ≤ 3998 }
    ensures { IfOk result (λ content. IsContent 2 content) }
{
    let mut content = Bytes::from_slice(alloc, &key)?;
    let filling = vec![in alloc; b'x'; more]?;
    content.extend(&filling)?;
    Ok(content)
}

/// Makes a call of a file whose keys have two bytes.
fn answer_of<F: RecordFile>(
    alloc: Global,
    file: &mut F,
    call: &str,
    key: [u8; 2],
    more: usize,
) -> Result<bool, Fail>
    requires { F.key_length file.old ≡ 2 }
    ensures { F.key_length file.new ≡ 2 }
{
    let more = more % 3999;
    match call {
        "insert" => Ok(file.insert(content(alloc, key, more)?)?),
        "replace" => Ok(file.replace(content(alloc, key, more)?)?),
        "remove" => Ok(file.remove(&key)?),
        _ => Err("no call".into()),
    }
}

/// Makes the call of a row, with a key that is so much larger, and gives the answer and the key.
fn answer_of_row<F: RecordFile>(
    alloc: Global,
    file: &mut F,
    shift: u16,
    row: &str,
) -> Result<(bool, [u8; 2]), Fail>
    requires { F.key_length file.old ≡ 2 }
    ensures { F.key_length file.new ≡ 2 }
{
    let (call, rest) = row.split_once(' ').ok_or("no key")?;
    let (key, more) = rest.split_once(' ').ok_or("no size")?;
    let key = key.parse::<u16>()?.wrapping_add(shift).to_be_bytes();
    let answer = answer_of(alloc, file, call, key, more.parse()?)?;
    Ok((answer, key))
}

/// What a file finds at a key, behind it and first.
fn found<F: RecordFile>(alloc: Global, file: &F, key: [u8; 2]) -> Result<String, Fail> {
    let (at, behind, first) = (file.find(&key), file.next(&key), file.next(b""));
    Ok(format!(in alloc; "{at:?} {behind:?} {first:?}")?)
}

/// Makes the call of a row, and tells what it answers and what the file finds then.
fn told<F: RecordFile>(
    alloc: Global,
    file: &mut F,
    shift: u16,
    row: &str,
) -> Result<(bool, String), Fail>
    requires { F.key_length file.old ≡ 2 }
    ensures { F.key_length file.new ≡ 2 }
{
    let (answer, key) = answer_of_row(alloc, file, shift, row)?;
    Ok((answer, found(alloc, file, key)?))
}

/// Makes the call of a row of two files, and asserts that they answer alike.
fn expect_alike(
    rt: &impl Abort,
    alloc: Global,
    file: &mut BlockFile,
    plain: &mut SortedFile,
    shift: u16,
    row: &str,
) -> Result<(), Fail>
    requires file { file.old.key ≡ 2 }
    requires plain { plain.old.key ≡ 2 }
    ensures file { file.new.key ≡ 2 }
    ensures plain { plain.new.key ≡ 2 }
{
    let (answer, found) = told(alloc, file, shift, row)?;
    let (wanted, plainly) = told(alloc, plain, shift, row)?;
    assert!(rt;
        answer == wanted && found.as_str() == plainly.as_str(),
        "{row} {shift}"
    );
    Ok(())
}

/// Makes all calls of the table of two files, and asserts that they answer alike.
fn expect_same(
    rt: &impl Abort,
    alloc: Global,
    file: &mut BlockFile,
    plain: &mut SortedFile,
    shift: u16,
) -> Result<(), Fail>
    requires file { file.old.key ≡ 2 }
    requires plain { plain.old.key ≡ 2 }
    ensures file { file.new.key ≡ 2 }
    ensures plain { plain.new.key ≡ 2 }
{
    for row in CALLS.split('\n') {
        expect_alike(rt, alloc, file, plain, shift, row)?;
    }
    Ok(())
}

/// Asserts that two lists have the same 73 records.
fn expect_equal(rt: &impl Abort, records: &[Bytes], expected: &[Bytes]) {
    assert!(rt; records.len() == 73 && expected.len() == 73);
    for (record, wanted) in records.iter().zip(expected.iter()) {
        assert!(rt; record.as_slice() == wanted.as_slice());
    }
}

/// Asserts that two files have the same records.
fn expect_same_records(
    rt: &impl Abort,
    alloc: Global,
    file: &BlockFile,
    plain: &SortedFile,
) -> Result<(), Fail> {
    let records = file.copy(alloc)?.records(alloc)?;
    let expected = plain.copy(alloc)?.records(alloc)?;
    expect_equal(rt, records.as_slice(), expected.as_slice());
    Ok(())
}

#[test]
fn block_file_equals_sorted_file(rt: HostRuntime) -> Result<(), Fail> {
    let alloc = rt.alloc();
    let mut file = BlockFile::new(alloc, 2)?;
    let mut plain = SortedFile::new(alloc, 2);
    for shift in [0, 3, 500, 250, 1, 301, 0, 999, 17, 2] {
        expect_same(&rt, alloc, &mut file, &mut plain, shift)?;
    }
    expect_same_records(&rt, alloc, &file, &plain)
}

/// Calls, and how many blocks the file has behind each. Two records of 2,046 bytes, each with the 2 of its length, fill a
/// block. A third one between them fits beside neither, so it has a block of its own, which goes with it. A small one
/// fits beside the first, and grows until it fits beside it no more.
const BLOCKS: &str = "insert 10 2044|1
insert 30 2044|1
insert 20 2045|3
remove 20 0|2
insert 20 0|2
replace 20 2045|3
remove 10 0|2
remove 20 0|1
remove 30 0|0";

/// Makes the call of a row, and asserts how many blocks there are then.
fn expect_blocks(
    rt: &impl Abort,
    alloc: Global,
    file: &mut BlockFile,
    row: &str,
) -> Result<(), Fail>
    requires { file.old.key ≡ 2 }
    ensures { file.new.key ≡ 2 }
{
    let (call, blocks) = row.split_once('|').ok_or("no blocks")?;
    let blocks = blocks.parse::<usize>()?;
    let (done, _key) = answer_of_row(alloc, file, 0, call)?;
    assert!(rt; done && file.blocks() == blocks, "{row}");
    Ok(())
}

#[test]
fn block_split_counts(rt: HostRuntime) -> Result<(), Fail> {
    let mut file = BlockFile::new(rt.alloc(), 2)?;
    assert!(rt; file.blocks() == 0);
    for row in BLOCKS.split('\n') {
        expect_blocks(&rt, rt.alloc(), &mut file, row)?;
    }
    Ok(())
}
