//! What answers do to the counts of a path.

ghost use Rattle.std.specs.Prelude.{◌≡◌, ◌<◌, ◌+◌};
ghost use Rattle.pw_code_meaning.specs.Answers as answers;
ghost use Rattle.pw_code.specs.declared.context.Course.TheVariants.{Instruction};
ghost use Rattle.pw_machine.specs.Stack.{HasRoom};

use pw_code::context::{Context, Course};

/// Behind an answer of a terminal the count is 0 again.
pub fn answered(context: &mut Context)
    ensures { context.new ≡ answers.answered context.old }
{
    context.at_verb = false;
    context.count = 0;
}

/// The screen was shown: one refresh more, and no advisory.
pub fn shown(context: &mut Context)
    requires { context.old.shown < 1000000 }
    ensures { context.new ≡ record (answers.answered context.old) { shown = context.old.shown + 1; course = Instruction } }
{
    answered(context);
    context.shown += 1;
    context.course = Course::Instruction;
}

/// A unit's attempt with this number of restarts has begun.
pub fn unit_begun(context: &mut Context, restarts: u32)
    requires { context.old.units < 1000000 }
    ensures { context.new ≡ answers.unit_begun restarts context.old }
{
    answered(context);
    context.in_unit = true;
    context.restarts = restarts;
    context.phase = 2 * context.units + 1;
    context.attempt = restarts;
    context.shown = 0;
}

/// A unit has ended.
pub fn unit_ended(context: &mut Context)
    requires { context.old.units < 1000000 }
    ensures { context.new ≡ answers.unit_ended context.old }
{
    answered(context);
    context.in_unit = false;
    context.units += 1;
    context.phase = 2 * context.units;
    context.attempt = 0;
    context.shown = 0;
}

/// A reply was taken. Outside a transaction the SEND was a unit, which ends with it.
pub fn reply_taken(context: &mut Context)
    requires { context.old.units < 1000000 }
    ensures { context.new ≡ answers.reply_taken context.old }
{
    if context.in_unit {
        answered(context);
    } else {
        unit_ended(context);
    }
}
