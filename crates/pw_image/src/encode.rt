ghost use Rattle.std.specs.Prelude.{◌≡◌, ◌≤◌, ◌++◌, length, All, IfOk, OnOk};
ghost use Rattle.std.specs.Int.{to_be_bytes, w32};
ghost use Rattle.std.specs.List.{flat_map};
ghost use Rattle.pw_code.specs.Limits.{most_active};
ghost use Rattle.pw_image.specs.Image.{HasImage, FrameFits, count_bytes, frame_bytes, image_of, return_bytes};
ghost use Rattle.pw_image.specs.Format.{IsImageOf};
ghost use Rattle.pw_image.specs.Values.{AreBytes, CountsHaveValues, FrameHasValues, ReturnHasValues};

use pw_base::bytes::Bytes;
use pw_base::memory::Memory;
use pw_code::context::{Context, Frame, Return};
use pw_code::screen::CELLS;
use std::alloc::Global;

/// The first bytes of each image.
const MARK: [u8; 3] = [0x50, 0x57, 0x01];

/// The bytes in front of an image's programs: its mark, its numbers, the screen and the number of programs.
const FRONT: usize = 3 + 28 + CELLS + 1;

/// The bytes of an active program beside its characters and its active PERFORMs.
const FRAME: usize = 11;

/// The bytes of an active PERFORM.
const RETURN: usize = 16;

/// The image of a context that has one: of a requester that stands at an answer, without a count, a fault or a file
/// status. docs/design/ARCHITECTURE.md has the format.
pub fn encode(alloc: Global, context: &Context) -> Result<Bytes, Memory>
    requires { HasImage context.now }
    ensures image { IfOk result (λ image. image ≡ image_of context.now) }
    ensures format { IfOk result (λ image. IsImageOf image context.now) }
{
    let mut image = Bytes::from_vec(Vec::with_capacity(alloc, room_for(context))?);
    image.extend(&MARK)?;
    put_counts(&mut image, context)?;
    image.push(context.in_unit as u8)?;
    image.push(context.course.is_advisory() as u8)?;
    put_cells(&mut image, context.screen.cells())?;
    image.push(context.frames.len() as u8)?;
    put_frames(&mut image, context.frames.as_slice())?;
    Ok(image)
}

/// The room that is taken at once for an image, for its bytes; with less, more would be taken as they come.
fn room_for(context: &Context) -> usize {
    let mut room = FRONT;
    for frame in context.frames.as_slice() {
        let returns = frame.returns.len().saturating_mul(RETURN);
        let program = frame.storage.len().saturating_add(returns);
        room = room.saturating_add(program).saturating_add(FRAME);
    }
    room
}

/// Puts the numbers that begin an image behind its mark.
fn put_counts(image: &mut Bytes, context: &Context) -> Result<(), Memory>
    ensures bytes { OnOk result (image.new ≡ image.old ++ count_bytes context.now) }
    ensures values { OnOk result (CountsHaveValues context.now) }
{
    image.extend(&context.termination.to_be_bytes())?;
    image.extend(&context.restarts.to_be_bytes())?;
    image.extend(&context.phase.to_be_bytes())?;
    image.extend(&context.attempt.to_be_bytes())?;
    image.extend(&context.shown.to_be_bytes())?;
    image.extend(&context.entries.to_be_bytes())?;
    image.extend(&context.units.to_be_bytes())?;
    Ok(())
}

/// Puts the cells of the screen behind an image's other bytes.
fn put_cells(image: &mut Bytes, cells: &[u8]) -> Result<(), Memory>
    ensures bytes { OnOk result (image.new ≡ image.old ++ cells.now) }
    ensures values { OnOk result (AreBytes cells.now) }
{
    image.extend(cells)?;
    Ok(())
}

/// Puts the active programs behind an image's other bytes.
fn put_frames(image: &mut Bytes, frames: &[Frame]) -> Result<(), Memory>
    requires { All FrameFits frames.now }
    ensures bytes { OnOk result (image.new ≡ image.old ++ flat_map frame_bytes frames.now) }
    ensures values { OnOk result (All FrameHasValues frames.now) }
{
    for frame in frames {
        put_frame(image, frame)?;
    }
    Ok(())
}

/// Puts an active program behind the others.
fn put_frame(image: &mut Bytes, frame: &Frame) -> Result<(), Memory>
    requires { FrameFits frame.now }
    ensures bytes { OnOk result (image.new ≡ image.old ++ frame_bytes frame.now) }
    ensures values { OnOk result (FrameHasValues frame.now) }
{
    image.extend(&frame.program.to_be_bytes())?;
    image.extend(&frame.at.to_be_bytes())?;
    put_storage(image, frame.storage.as_slice())?;
    image.push(frame.returns.len() as u8)?;
    put_returns(image, frame.returns.as_slice())?;
    Ok(())
}

/// Puts the characters of a program behind their number.
fn put_storage(image: &mut Bytes, storage: &[u8]) -> Result<(), Memory>
    requires { length storage.now ≤ most_active }
    ensures bytes { OnOk result
        (image.new ≡ image.old ++ (to_be_bytes w32 (length storage.now) ++ storage.now)) }
    ensures values { OnOk result (AreBytes storage.now) }
{
    image.extend(&(storage.len() as u32).to_be_bytes())?;
    image.extend(storage)?;
    Ok(())
}

/// Puts active PERFORMs behind the program's other bytes.
fn put_returns(image: &mut Bytes, returns: &[Return]) -> Result<(), Memory>
    ensures bytes { OnOk result (image.new ≡ image.old ++ flat_map return_bytes returns.now) }
    ensures values { OnOk result (All ReturnHasValues returns.now) }
{
    for active in returns {
        put_return(image, active)?;
    }
    Ok(())
}

/// Puts an active PERFORM behind the others.
fn put_return(image: &mut Bytes, active: &Return) -> Result<(), Memory>
    ensures bytes { OnOk result (image.new ≡ image.old ++ return_bytes active.now) }
    ensures values { OnOk result (ReturnHasValues active.now) }
{
    image.extend(&active.resume.to_be_bytes())?;
    image.extend(&active.until.to_be_bytes())?;
    image.extend(&active.turns.to_be_bytes())?;
    Ok(())
}
