//! The numbers and characters of a context are those of their types. These calls do nothing: they
//! show it to whoever speaks of images.

ghost use Rattle.std.specs.Prelude.{All};
ghost use Rattle.pw_image.specs.Values.{AreBytes, CountsHaveValues, FrameHasValues, HasValues, ReturnHasValues};

use pw_code::context::{Context, Frame, Return};

/// Shows the numbers and characters of a context.
pub fn know_values(context: &Context)
    ensures { HasValues context.now }
{
    know_counts(context);
    know_bytes(context.screen.cells());
    know_frames(context.frames.as_slice());
}

/// Shows the numbers that begin an image.
fn know_counts(context: &Context)
    ensures { CountsHaveValues context.now }
{
    let _termination = context.termination;
    let _restarts = context.restarts;
    let _phase = context.phase;
    let _attempt = context.attempt;
    let _shown = context.shown;
    let _entries = context.entries;
    let _units = context.units;
}

/// Shows bytes.
fn know_bytes(bytes: &[u8])
    ensures { AreBytes bytes.now }
{
    let _length = bytes.len();
}

/// Shows active programs.
fn know_frames(frames: &[Frame])
    ensures { All FrameHasValues frames.now }
{
    for frame in frames {
        know_frame(frame);
    }
}

/// Shows an active program.
fn know_frame(frame: &Frame)
    ensures { FrameHasValues frame.now }
{
    let _program = frame.program;
    let _at = frame.at;
    know_bytes(frame.storage.as_slice());
    know_returns(frame.returns.as_slice());
}

/// Shows active PERFORMs.
fn know_returns(returns: &[Return])
    ensures { All ReturnHasValues returns.now }
{
    for active in returns {
        know_return(active);
    }
}

/// Shows an active PERFORM.
fn know_return(active: &Return)
    ensures { ReturnHasValues active.now }
{
    let _resume = active.resume;
    let _until = active.until;
    let _turns = active.turns;
}
