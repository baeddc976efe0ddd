//! Programs that stand at their verbs, and what they are answered.

ghost use Rattle.std.specs.Prelude.{◌≡◌, ◌<◌, IfOk, Some, length};
ghost use Rattle.pw_entry_effects.specs.Can.{CanAnswer};
ghost use Rattle.pw_entry_effects.specs.Verbs.{begins};
ghost use Rattle.pw_code.specs.Valid.{IsValid};
ghost use Rattle.pw_code_meaning.specs.Sound.{IsSoundContext};
ghost use Rattle.pw_world_store.specs.Keeps.{IsChanged, kept_in};
ghost use Rattle.pw_world_state.specs.Asked.{answered_with};
ghost use Rattle.pw_world_state.specs.Entered.{answer_terminal, tcp_of, verb_of};
ghost use Rattle.pw_world_state.specs.TerminalTests.{closing};
ghost use Rattle.pw_world_state.specs.Tested.{IsPlaced};
ghost use Rattle.pw_machine.specs.Stack.{HasRoom};

use pw_base::memory::Memory;
use pw_code::context::Context;
use pw_code::system::System;
use pw_code::verb::{Answer, Verb};
use pw_machine::run;
use pw_tmf::disc::Disc;
use pw_world_store::keep::Keep;

/// The pair of a terminal.
pub fn pair_of(system: &System, terminal: u32) -> u32
    requires { IsPlaced system.now terminal }
    ensures pair { result ≡ tcp_of system.now terminal }
    ensures known { result < length system.now.tcps }
{
    system.terminals.as_slice()[terminal as usize].tcp
}

/// A copy of a context at its verb, with the answer put in.
pub fn answered(system: &System, context: &Context, answer: Answer) -> Result<Context, Memory>
    requires valid { IsValid system.now }
    requires sound { IsSoundContext system.now context.now }
    requires room { HasRoom context.now }
    ensures { IfOk result (λ next. next ≡ answered_with system.now answer context.now) }
{
    let mut next = context.duplicate()?;
    run::answer(system, &mut next, answer)?;
    Ok(next)
}

/// A terminal's program goes on behind the answer to its verb. It takes no memory.
pub fn go_behind<D: Disc>(keep: &mut Keep<D>, terminal: u32, answer: Answer)
    requires valid { IsValid keep.old.system }
    requires can { CanAnswer keep.old.system (kept_in D.told keep.old) terminal }
    ensures { IsChanged D.told (answer_terminal keep.old.system terminal answer) keep.old keep.new }
{
    match keep.leave_verb(terminal) {
        Some(mut context) => {
            run::answer(keep.system(), &mut context, answer).unwrap();
            keep.answer(terminal, context);
        }
        None => unreachable!(),
    }
}

/// Whether a terminal's program stands at Begin.
pub fn begins<D: Disc>(keep: &Keep<D>, terminal: u32) -> bool
    requires { IsPlaced keep.now.system terminal }
    ensures { result ≡ begins (verb_of keep.now.system ((kept_in D.told keep.now).terminals terminal)) }
{
    match &keep.seat(terminal).ready {
        Some(at) => matches!(&at.verb, Verb::Begin),
        None => false,
    }
}

/// The answer that ends a transaction at a verb, if one does.
pub fn closing(verb: &Verb) -> Option<Answer>
    ensures { result ≡ closing verb.now }
{
    match verb {
        Verb::End => Some(Answer::Ended),
        Verb::Drop => Some(Answer::Dropped),
        _ => None,
    }
}
