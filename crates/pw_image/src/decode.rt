ghost use Rattle.std.specs.Prelude.{◌≡◌, drop, take, if◌then◌else◌, bytes_eq, IfOk};
ghost use Rattle.std.specs.Option.{option_copied};
ghost use Rattle.pw_code.specs.declared.context.Context.{Context};
ghost use Rattle.pw_image.specs.Format.{IsImageOf};
ghost use Rattle.pw_image.specs.Image.{mark};
ghost use Rattle.pw_image.specs.Counts.{seen_counts};
ghost use Rattle.pw_image.specs.Reading.{GivesPart, context_at, context_in, counts_at, course_of};

use crate::counts::Counts;
use crate::fault::BytesFault;
use crate::reading::{read_frames, read_screen, read_truth, read_u16, read_u32};
use pw_code::context::{Context, Course};
use std::alloc::Global;

/// The numbers that begin an image, and the rest.
#[tactic(auto, unfolding(crate::specs::Reading::counts_at))]
fn read_counts(bytes: &[u8]) -> Result<(Counts, &[u8]), BytesFault>
    ensures { GivesPart (λ x. (seen_counts x.0, x.1.now)) result (counts_at bytes.now) }
{
    let (termination, rest) = read_u16(bytes)?;
    let (restarts, rest) = read_u32(rest)?;
    let (phase, rest) = read_u32(rest)?;
    let (attempt, rest) = read_u32(rest)?;
    let (shown, rest) = read_u32(rest)?;
    let (entries, rest) = read_u32(rest)?;
    let (units, rest) = read_u32(rest)?;
    let counts = Counts {
        termination,
        restarts,
        phase,
        attempt,
        shown,
        entries,
        units,
    };
    Ok((counts, rest))
}

/// How a context goes on, by the byte that says whether an advisory is to be shown.
fn course_of(advisory: u8) -> Course
    ensures { result ≡ course_of advisory }
{
    if advisory == 1 {
        Course::Advisory
    } else {
        Course::Instruction
    }
}

/// A context at an answer, and the rest.
#[tactic(auto, unfolding(crate::specs::Reading::context_at))]
fn read_context(alloc: Global, bytes: &[u8]) -> Result<(Context, &[u8]), BytesFault>
    ensures { GivesPart (λ x. (x.0, x.1.now)) result (context_at bytes.now) }
{
    let (counts, rest) = read_counts(bytes)?;
    let (in_unit, rest) = read_truth(rest)?;
    let (advisory, rest) = read_truth(rest)?;
    let (screen, rest) = read_screen(alloc, rest)?;
    let (frames, rest) = read_frames(alloc, rest)?;
    let context = Context {
        termination: counts.termination,
        restarts: counts.restarts,
        file_status: 0,
        phase: counts.phase,
        attempt: counts.attempt,
        shown: counts.shown,
        entries: counts.entries,
        units: counts.units,
        in_unit: in_unit == 1,
        course: course_of(advisory),
        at_verb: false,
        count: 0,
        screen,
        frames,
    };
    Ok((context, rest))
}

/// The bytes behind the mark, if the mark is there.
fn behind_mark(bytes: &[u8]) -> Option<&[u8]>
    ensures { option_copied result ≡ (if bytes_eq (take 3 bytes.now) mark then Some (drop 3 bytes.now) else None) }
{
    match bytes {
        [0x50, 0x57, 0x01, rest @ ..] => Some(rest),
        _ => None,
    }
}

/// The context that the bytes are read as.
#[tactic(auto, unfolding(crate::specs::Reading::context_in))]
fn read_image(alloc: Global, bytes: &[u8]) -> Result<Context, BytesFault>
    ensures context { IfOk result (λ context. context_in bytes.now ≡ Some context) }
    ensures bad { result ≡ Err BytesFault.Bad → context_in bytes.now ≡ None }
{
    let Some(rest) = behind_mark(bytes) else {
        return Err(BytesFault::Bad);
    };
    let (context, rest) = read_context(alloc, rest)?;
    if !rest.is_empty() {
        return Err(BytesFault::Bad);
    }
    Ok(context)
}

/// The context that an image is of. It is `Bad` exactly where the bytes are no image; docs/design/ARCHITECTURE.md has the format.
pub fn decode(alloc: Global, bytes: &[u8]) -> Result<Context, BytesFault>
    // What is read has these bytes as its image.
    ensures image { IfOk result (IsImageOf bytes.now) }
    // Bytes are bad only where they are the image of no context.
    ensures bad { result ≡ Err BytesFault.Bad → (context : Context) → ¬ IsImageOf bytes.now context }

    ensures reads { IfOk result (λ context. context_in bytes.now ≡ Some context) }
    ensures none { result ≡ Err BytesFault.Bad → context_in bytes.now ≡ None }
{
    read_image(alloc, bytes)
}
