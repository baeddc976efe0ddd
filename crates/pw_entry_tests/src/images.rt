//! Whether bytes are the image of a context, without building it.

ghost use Rattle.std.specs.Prelude.{◌≡◌, ◌+◌, ◌++◌, ◌∷◌, [], length, bytes_eq};
ghost use Rattle.std.specs.Int.{to_be_bytes, w32};
ghost use Rattle.std.specs.List.{flat_map};
ghost use Rattle.std.specs.Option.{option_copied};
ghost use Rattle.pw_image.specs.Image.{frame_bytes, image_of, return_bytes};
ghost use Rattle.pw_entry_tests.specs.Images.{IsRestBehind, behind_end, head_bytes, is_all, left_of, number_bytes};
ghost use Rattle.pw_entry_tests.specs.Known.{IsFewCounted};

use pw_code::context::{Context, Frame, Return};

/// The first bytes of each image.
const MARK: [u8; 3] = [0x50, 0x57, 0x01];

/// Whether the bytes are the image of the context.
pub fn is_image(bytes: &[u8], context: &Context) -> bool
    ensures { result ≡ bytes_eq bytes.now (image_of context.now) }
{
    let left = behind_head(
        bytes,
        context,
        context.phase,
        context.attempt,
        context.shown,
        context.units,
        context.in_unit,
    );
    let frames = context.frames.as_slice();
    is_all(behind_frames(behind_number(left, frames.len()), frames))
}

/// Whether the bytes are the image of the context, which stands at the end of a transaction, behind
/// the answer.
pub fn is_end_image(bytes: &[u8], context: &Context) -> bool
    requires { IsFewCounted context.now }
    ensures { result ≡ bytes_eq bytes.now (image_of (behind_end context.now)) }
{
    let units = context.units + 1;
    let left = behind_head(bytes, context, 2 * units, 0, 0, units, false);
    match context.frames.as_slice().split_last() {
        Some((top, others)) => {
            let left = behind_frames(behind_number(left, others.len() + 1), others);
            let at = u64::from(top.at) + 1;
            is_all(behind_frame(
                left,
                top.program,
                at,
                top.storage.as_slice(),
                top.returns.as_slice(),
            ))
        }
        None => is_all(behind_frame(behind_number(left, 1), 0, 1, &[], &[])),
    }
}

/// Whether bytes are left, and there is none.
fn is_all(left: Option<&[u8]>) -> bool
    ensures { result ≡ is_all (option_copied left.entry) }
{
    match left {
        Some(left) => left.is_empty(),
        None => false,
    }
}

/// What is left of bytes behind these at their front, None where they begin otherwise.
fn behind<'a>(left: Option<&'a [u8]>, front: &[u8]) -> Option<&'a [u8]>
    ensures { option_copied result ≡ left_of front.now (option_copied left.entry) }
{
    match left {
        Some(left) => left.strip_prefix(front),
        None => None,
    }
}

/// What is left of bytes behind a number that is one byte.
fn behind_number<'a>(left: Option<&'a [u8]>, number: usize) -> Option<&'a [u8]>
    ensures { option_copied result ≡ left_of (number ∷ []) (option_copied left.entry) }
{
    match left {
        Some([byte, rest @ ..]) if *byte as usize == number => Some(rest),
        _ => None,
    }
}

/// What is left of bytes behind the low four bytes of a number, the highest first.
fn behind_word<'a>(left: Option<&'a [u8]>, number: u64) -> Option<&'a [u8]>
    ensures { option_copied result ≡ left_of (to_be_bytes w32 number) (option_copied left.entry) }
{
    let bytes = number.to_be_bytes();
    behind(left, &[bytes[4], bytes[5], bytes[6], bytes[7]])
}

/// The mark and the numbers before the cells of an image, with these counts in place of those of the context.
fn numbers_of(
    context: &Context,
    phase: u32,
    attempt: u32,
    shown: u32,
    units: u32,
    in_unit: bool,
) -> [u8; 31]
    ensures { result ≡ number_bytes (record context.now {
      phase = phase;
      attempt = attempt;
      shown = shown;
      units = units;
      in_unit = in_unit;
    }) }
{
    let [t0, t1] = context.termination.to_be_bytes();
    let [r0, r1, r2, r3] = context.restarts.to_be_bytes();
    let [p0, p1, p2, p3] = phase.to_be_bytes();
    let [a0, a1, a2, a3] = attempt.to_be_bytes();
    let [s0, s1, s2, s3] = shown.to_be_bytes();
    let [e0, e1, e2, e3] = context.entries.to_be_bytes();
    let [u0, u1, u2, u3] = units.to_be_bytes();
    let [m0, m1, m2] = MARK;
    let advisory = context.course.is_advisory() as u8;
    [
        m0,
        m1,
        m2,
        t0,
        t1,
        r0,
        r1,
        r2,
        r3,
        p0,
        p1,
        p2,
        p3,
        a0,
        a1,
        a2,
        a3,
        s0,
        s1,
        s2,
        s3,
        e0,
        e1,
        e2,
        e3,
        u0,
        u1,
        u2,
        u3,
        in_unit as u8,
        advisory,
    ]
}

/// What is left of bytes behind what an image has before its programs, with these counts in place of
/// those of the context.
fn behind_head<'a>(
    bytes: &'a [u8],
    context: &Context,
    phase: u32,
    attempt: u32,
    shown: u32,
    units: u32,
    in_unit: bool,
) -> Option<&'a [u8]>
    ensures { option_copied result
        ≡ left_of (head_bytes (record context.now {
          phase = phase;
          attempt = attempt;
          shown = shown;
          units = units;
          in_unit = in_unit;
        }))
        (Some bytes.now) }
{
    let numbers = numbers_of(context, phase, attempt, shown, units, in_unit);
    let left = behind(Some(bytes), &numbers);
    behind(left, context.screen.cells())
}

/// What is left of bytes behind some programs.
fn behind_frames<'a>(left: Option<&'a [u8]>, frames: &[Frame]) -> Option<&'a [u8]>
    ensures { option_copied result ≡ left_of (flat_map frame_bytes frames.now) (option_copied left.entry) }
{
    let mut rest = left;
    for frame in frames {
        rest = behind_one(rest, frame);
    }
    rest
}

/// What is left of bytes behind one program.
fn behind_one<'a>(left: Option<&'a [u8]>, frame: &Frame) -> Option<&'a [u8]>
    ensures { option_copied result ≡ left_of (frame_bytes frame.now) (option_copied left.entry) }
{
    behind_frame(
        left,
        frame.program,
        u64::from(frame.at),
        frame.storage.as_slice(),
        frame.returns.as_slice(),
    )
}

/// What is left of bytes behind one program, by its parts.
fn behind_frame<'a>(
    left: Option<&'a [u8]>,
    program: u16,
    at: u64,
    storage: &[u8],
    returns: &[Return],
) -> Option<&'a [u8]>
    ensures { option_copied result
        ≡ left_of (frame_bytes (record { program = program; at = at; storage = storage.now; returns = returns.now }))
        (option_copied left.entry) }
{
    let left = behind(left, &program.to_be_bytes());
    let left = behind_word(left, at);
    let left = behind_word(left, storage.len() as u64);
    let left = behind(left, storage);
    behind_returns(behind_number(left, returns.len()), returns)
}

/// What is left of bytes behind active PERFORMs.
fn behind_returns<'a>(left: Option<&'a [u8]>, returns: &[Return]) -> Option<&'a [u8]>
    ensures { option_copied result ≡ left_of (flat_map return_bytes returns.now) (option_copied left.entry) }
{
    let mut rest = left;
    for active in returns {
        rest = behind_return(rest, active);
    }
    rest
}

/// What is left of bytes behind an active PERFORM.
fn behind_return<'a>(left: Option<&'a [u8]>, active: &Return) -> Option<&'a [u8]>
    ensures { IsRestBehind (return_bytes active.now) (option_copied left.entry) (option_copied result) }
{
    let left = behind(left, &active.resume.to_be_bytes());
    let left = behind(left, &active.until.to_be_bytes());
    behind(left, &active.turns.to_be_bytes())
}
