use pw_disc::call::DiscCall;
use pw_disc::decode::decode_call;
use pw_disc::encode::encode_call;
use pw_image::fault::BytesFault;
use std::alloc::Global;
use std::process::Abort;
use std::test::Fail;

/// The bytes of a unit, and the unit as it prints.
const UNIT_BYTES: &str = "0 0 0 1 0 0 0 2 3 4 5 6 7 8 9 10";

const UNIT: &str = "Unit { terminal: 1, number: 2, birth: 217304205466536202 }";

/// The bytes of messages, and the calls that they are, as they print.
const MESSAGES: &str = "1 UNIT|Begin(UNIT)
2 UNIT 0 0 0 6 0 0 0 0 0 0 0 0 0|Operate(UNIT, FileCall { file: 6, op: Read, key: Bytes { bytes: [] }, content: Bytes { bytes: [] } })
2 UNIT 0 0 0 6 1 0 0 0 0 0 0 0 0|Operate(UNIT, FileCall { file: 6, op: Next, key: Bytes { bytes: [] }, content: Bytes { bytes: [] } })
2 UNIT 0 0 0 6 2 0 0 0 0 0 0 0 0|Operate(UNIT, FileCall { file: 6, op: Write, key: Bytes { bytes: [] }, content: Bytes { bytes: [] } })
2 UNIT 0 0 0 6 3 0 0 0 0 0 0 0 2 65 66|Operate(UNIT, FileCall { file: 6, op: Rewrite, key: Bytes { bytes: [] }, content: Bytes { bytes: [65, 66] } })
2 UNIT 0 0 0 6 4 0 0 0 0 0 0 0 0|Operate(UNIT, FileCall { file: 6, op: Delete, key: Bytes { bytes: [] }, content: Bytes { bytes: [] } })
2 UNIT 0 0 0 6 5 0 0 0 0 0 0 0 0|Operate(UNIT, FileCall { file: 6, op: ReadLock, key: Bytes { bytes: [] }, content: Bytes { bytes: [] } })
2 UNIT 0 0 0 6 6 0 0 0 1 75 0 0 0 0|Operate(UNIT, FileCall { file: 6, op: NextLock, key: Bytes { bytes: [75] }, content: Bytes { bytes: [] } })
3 UNIT 0|Commit(UNIT, None)
3 UNIT 1 0 0 0 2 79 75|Commit(UNIT, Some(Bytes { bytes: [79, 75] }))
4 UNIT 0 0 0 0 0|BackOut(Units { units: [UNIT] }, false)
4 UNIT 1 0 0 0 1 11 12 13 14 0 0 0 255 0 0 0 0 0 0 0 16|BackOut(Units { units: [UNIT, Unit { terminal: 185339150, number: 255, birth: 16 }] }, true)";

/// Bytes that are no message.
const BAD: &str = "0 UNIT
5 UNIT
255 UNIT
2 UNIT 0 0 0 6 7 0 0 0 0 0 0 0 0
2 UNIT 0 0 0 6 0 255 255 255 255 0 0 0 0
3 UNIT 2
3 UNIT 2 0 0 0 0
4 UNIT 2 0 0 0 0
4 UNIT 1 255 255 255 255";

/// A message as a row writes it: a number for each byte, and `UNIT` for the bytes of the unit.
fn message(alloc: Global, row: &str) -> Result<Vec<u8>, Fail> {
    let row = row.replace(alloc, "UNIT", UNIT_BYTES)?;
    let mut bytes = Vec::new(alloc);
    for byte in row.as_str().split(' ') {
        bytes.push(byte.parse::<u8>()?)?;
    }
    Ok(bytes)
}

/// Whether bytes are no message.
fn is_bad(alloc: Global, bytes: &[u8]) -> bool {
    matches!(decode_call(alloc, bytes), Err(BytesFault::Bad))
}

/// Asserts that no part of a message is one, nor the message with a byte more.
fn expect_no_part(rt: &impl Abort, alloc: Global, bytes: &[u8]) -> Result<(), Fail> {
    for length in 0..bytes.len() {
        assert!(rt; is_bad(alloc, bytes.split_at(length).0), "{length} bytes");
    }
    let mut more = Vec::from_slice(alloc, bytes)?;
    more.push(0)?;
    assert!(rt; is_bad(alloc, &more), "a byte more");
    Ok(())
}

/// Asserts how a call prints.
fn expect_text(rt: &impl Abort, alloc: Global, call: &DiscCall, wanted: &str) -> Result<(), Fail> {
    let wanted = wanted.replace(alloc, "UNIT", UNIT)?;
    let found = format!(in alloc; "{call:?}")?;
    assert!(rt; found.as_str() == wanted.as_str(), "{found}");
    Ok(())
}

/// Asserts which bytes the message of a call has.
fn expect_bytes(rt: &impl Abort, alloc: Global, call: &DiscCall, bytes: &[u8]) -> Result<(), Fail> {
    let message = encode_call(alloc, call)?;
    assert!(rt; message.as_slice() == bytes);
    Ok(())
}

/// Asserts that the bytes of a row are the message of its call, and no part of them is one.
fn expect_message(rt: &impl Abort, alloc: Global, row: &str) -> Result<(), Fail> {
    let (bytes, wanted) = row.split_once('|').ok_or("no call")?;
    let bytes = message(alloc, bytes)?;
    let call = decode_call(alloc, &bytes)?;
    expect_text(rt, alloc, &call, wanted)?;
    expect_bytes(rt, alloc, &call, &bytes)?;
    expect_no_part(rt, alloc, &bytes)
}

#[test]
fn messages_by_hand(rt: HostRuntime) -> Result<(), Fail> {
    for row in MESSAGES.split('\n') {
        expect_message(&rt, rt.alloc(), row)?;
    }
    Ok(())
}

#[test]
fn bytes_of_no_message(rt: HostRuntime) -> Result<(), Fail> {
    for row in BAD.split('\n') {
        let bytes = message(rt.alloc(), row)?;
        assert!(rt; is_bad(rt.alloc(), &bytes), "{row}");
    }
    Ok(())
}
