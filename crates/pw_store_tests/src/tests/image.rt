use pw_code::context::{Context, Frame};
use pw_image::changes::changes;
use pw_image::decode::decode;
use pw_image::fault::BytesFault;
use std::alloc::{AllocError, Global};
use std::process::Abort;
use std::test::Fail;

/// The image of a context at its beginning, up to its programs: the mark, 28 bytes of numbers and a screen of blanks.
fn front(alloc: Global) -> Result<Vec<u8>, Fail> {
    let mut bytes = Vec::from_slice(alloc, &[0x50, 0x57, 0x01])?;
    bytes.extend_from_slice(&[0; 28])?;
    let cells = vec![in alloc; b' '; 1920]?;
    bytes.extend_from_slice(&cells)?;
    Ok(bytes)
}

/// The image of the start context of a program without storage.
fn start_image(alloc: Global) -> Result<Vec<u8>, Fail> {
    let mut bytes = front(alloc)?;
    bytes.extend_from_slice(&[1, 0, 0, 0, 0, 0, 0, 0, 0, 0, 0, 0])?;
    Ok(bytes)
}

/// Whether bytes are no image.
fn is_bad(alloc: Global, bytes: &[u8]) -> bool {
    matches!(decode(alloc, bytes), Err(BytesFault::Bad))
}

#[test]
fn image_size(rt: HostRuntime) -> Result<(), Fail> {
    let mut image = start_image(rt.alloc())?;
    assert!(rt; image.len() == 1963);
    assert!(rt; decode(rt.alloc(), &image).is_ok());
    image.push(0)?;
    assert!(rt; is_bad(rt.alloc(), &image), "a byte more");
    Ok(())
}

#[test]
fn image_prefixes(rt: HostRuntime) -> Result<(), Fail> {
    let image = start_image(rt.alloc())?;
    for length in 0..image.len() {
        let (prefix, _) = image.split_at(length);
        assert!(rt; is_bad(rt.alloc(), prefix), "{length} bytes");
    }
    Ok(())
}

/// Bytes, in hexadecimal, the places at which they stand in an image, and whether it is bad with them.
const CHANGED: &str = "51 0 true
77 1 true
02 2 true
02 29 true
02 30 true
00 1951 true
02 1951 true
01 1961 true
01 1962 true
ff 3 false
ff 28 false
01 29 false
01 30 false
ff 31 false
ff 1952 false";

/// Whether an image is bad where a byte of it is changed.
fn is_bad_with(alloc: Global, byte: &str, place: &str) -> Result<bool, Fail> {
    let byte = u8::from_str_radix(byte, 16)?;
    let place = place.parse::<usize>()?;
    let mut image = start_image(alloc)?;
    let changed = image.get_mut(place).ok_or("no place of the image")?;
    *changed = byte;
    Ok(is_bad(alloc, &image))
}

/// Asserts whether the image is bad with the byte of a row.
fn expect_changed(rt: &impl Abort, alloc: Global, row: &str) -> Result<(), Fail> {
    let (byte, rest) = row.split_once(' ').ok_or("no place")?;
    let (place, bad) = rest.split_once(' ').ok_or("no answer")?;
    let found = is_bad_with(alloc, byte, place)?;
    let bad = bad.parse::<bool>()?;
    assert!(rt; found == bad, "{row}");
    Ok(())
}

#[test]
fn bytes_of_no_image(rt: HostRuntime) -> Result<(), Fail> {
    for row in CHANGED.split('\n') {
        expect_changed(&rt, rt.alloc(), row)?;
    }
    Ok(())
}

/// The numbers of an image behind its mark.
const NUMBERS: &[u8] =
    b"\x01\x02\0\0\0\x03\0\0\0\x04\0\0\0\x05\0\0\0\x06\0\0\0\x07\0\0\0\x08\x01\x01";

/// The numbers of a context, as a text.
fn numbers_of(alloc: Global, context: &Context) -> Result<String, AllocError> {
    format!(in alloc;
        "{} {} {} {} {} {} {} {} {:?}",
        context.termination,
        context.restarts,
        context.phase,
        context.attempt,
        context.shown,
        context.entries,
        context.units,
        context.in_unit,
        context.course
    )
}

#[test]
fn numbers_are_read(rt: HostRuntime) -> Result<(), Fail> {
    let mut image = start_image(rt.alloc())?;
    for (at, byte) in NUMBERS.iter().enumerate() {
        if let Some(changed) = image.get_mut(at.saturating_add(3)) {
            *changed = *byte;
        }
    }
    let context = decode(rt.alloc(), &image)?;
    let found = numbers_of(rt.alloc(), &context)?;
    assert!(rt; found.as_str() == "258 3 4 5 6 7 8 true Advisory");
    Ok(())
}

/// A program at a place with three characters and two active PERFORMs.
const FRAME: &[u8] = b"\0\x05\0\x01\x02\x03\0\0\0\x037A9\x02\
    \0\x01\x11\x70\0\0\0\x09\0\0\x01\x02\x03\x04\x05\x06\
    \0\0\0\x08\0\0\0\x07\0\0\0\0\0\0\0\0";

/// What a program is, as it prints.
fn told(alloc: Global, frame: &Frame) -> Result<String, Fail> {
    let chars = frame.storage.as_slice();
    let returns = frame.returns.as_slice();
    Ok(format!(in alloc; "{} {} {chars:?} {returns:?}", frame.program, frame.at)?)
}

/// Asserts that nine programs are those of `FRAME`.
fn expect_frames(rt: &impl Abort, alloc: Global, context: &Context) -> Result<(), Fail> {
    assert!(rt; context.frames.len() == 9);
    for frame in context.frames.as_slice() {
        let told = told(alloc, frame)?;
        assert!(rt; told.as_str() == FRAME_TOLD);
    }
    Ok(())
}

/// The same program as it prints.
const FRAME_TOLD: &str =
    "5 66051 [55, 65, 57] [Return { resume: 70000, until: 9, turns: 1108152157446 }, \
Return { resume: 8, until: 7, turns: 0 }]";

#[test]
fn programs_are_read(rt: HostRuntime) -> Result<(), Fail> {
    let mut image = front(rt.alloc())?;
    image.push(9)?;
    for _ in 0..9 {
        image.extend_from_slice(FRAME)?;
    }
    assert!(rt; image.len() == 2366);
    let context = decode(rt.alloc(), &image)?;
    expect_frames(&rt, rt.alloc(), &context)
}

#[test]
fn one_changed_record(rt: HostRuntime) -> Result<(), Fail> {
    let old = [0u8; 130];
    let mut new = [0u8; 130];
    new[128] = 1;
    let changed = changes(rt.alloc(), &old, &new)?;
    assert!(rt; changed.as_slice().len() == 1);
    for record in changed.as_slice() {
        assert!(rt; record.number == 2);
        assert!(rt; record.bytes.as_slice() == [1, 0].as_slice());
    }
    Ok(())
}

#[test]
fn equal_images_no_change(rt: HostRuntime) -> Result<(), Fail> {
    for length in [0, 1, 63, 64, 65, 1963] {
        let image = vec![in rt.alloc(); 7; length]?;
        let changed = changes(rt.alloc(), &image, &image)?;
        assert!(rt; changed.as_slice().is_empty(), "{length} bytes");
    }
    Ok(())
}
