ghost use Rattle.std.specs.Prelude.{◌≡◌, ◌≤◌, ◌<◌, ◌+◌, ◌^◌, true, nat_lt, length, if◌then◌else◌};
ghost use Rattle.pw_code.specs.declared.context.Course.TheVariants.{Fault};
ghost use Rattle.pw_code_meaning.specs.Calls as programs;
ghost use Rattle.pw_code_meaning.specs.Config as config;
ghost use Rattle.pw_machine.specs.Config.{config_of};
ghost use Rattle.pw_machine.specs.Stack.{StaysAt};

use crate::top::Top;
use crate::turns::fault;
use pw_code::context::Context;
use pw_code::system::System;

/// Stands at its next verb.
pub fn ask(context: &mut Context)
    ensures { context.new ≡ record context.old { at_verb = true } }
{
    context.at_verb = true;
}

/// BEGIN-TRANSACTION, which in a transaction is NESTED.
pub fn begin(context: &mut Context)
    ensures asked { context.new ≡ (if context.old.in_unit then record context.old { course = Fault 205; at_verb = true } else record context.old { at_verb = true }) }
    ensures frames { context.new.frames ≡ context.old.frames }
{
    if context.in_unit {
        fault(context, 205);
    } else {
        ask(context);
    }
}

/// END-, ABORT- and RESTART-TRANSACTION, each of which outside a transaction is NOUNIT.
pub fn ask_in_unit(context: &mut Context)
    ensures asked { context.new ≡ (if context.old.in_unit then record context.old { at_verb = true } else record context.old { course = Fault 206; at_verb = true }) }
    ensures frames { context.new.frames ≡ context.old.frames }
{
    if context.in_unit {
        ask(context);
    } else {
        fault(context, 206);
    }
}

/// STOP RUN, and the end of a program that no other called: in a server NOREPLY, in a transaction OPENUNIT.
pub fn stop(system: &System, top: &Top, context: &mut Context)
    ensures config { config_of top.now context.new ≡ programs.stops system.now (config_of top.now context.old) }
    ensures stays { StaysAt (config_of top.now context.old) (config_of top.now context.new) }
{
    if top.program as usize >= system.programs.len() {
        fault(context, 209);
    } else if context.in_unit {
        fault(context, 207);
    } else {
        ask(context);
    }
}
