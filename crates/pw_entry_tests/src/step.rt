//! A step of each actor that has one.

ghost use Rattle.std.specs.Prelude.{◌<◌, IfOk, length};
ghost use Rattle.std.specs.Option.{ForSome};
ghost use Rattle.pw_world_state.specs.NextSteps.{MayStepAt, standing};
ghost use Rattle.pw_world_store.specs.Keeps.{kept_in};
ghost use Rattle.pw_actor_queue.specs.declared.actor.Actor.TheVariants.{Class, Terminal};
ghost use Rattle.pw_entry_tests.specs.Actors.{IsActorIn};
ghost use Rattle.pw_entry_tests.specs.Known.{IsKnown, IsNextKnown};
ghost use Rattle.pw_entry_tests.specs.Steps.{HasNoCausedStep, IsFoundOr, IsStepFound};

use crate::causes::{find_cause, most_restarts, running};
use crate::members::pair_step;
use crate::own::own_step;
use crate::pairs::may_lose;
use crate::works::process_step;
use pw_actor_queue::actor::Actor;
use pw_base::memory::Memory;
use pw_event::event::{Ending, Event};
use pw_tmf::disc::Disc;
use pw_world_store::keep::Keep;

/// A step of an actor, None exactly where it has none that shows. FAIL entries are none of these. An
/// APPLIED whose message is not built comes only where the pair has no other step. What is asked of
/// the disc may want memory.
pub fn step<D: Disc>(keep: &Keep<D>, actor: Actor) -> Result<Option<Event>, Memory>
    requires actor { IsActorIn keep.now.system actor }
    requires known { IsKnown keep.now.system (kept_in D.told keep.now) }
    requires next { IsNextKnown keep.now.system (kept_in D.told keep.now) actor }
    ensures { IfOk result (IsStepFound keep.now.system (kept_in D.told keep.now) actor) }
{
    match actor {
        Actor::Terminal(terminal) => terminal_step(keep, terminal),
        Actor::Process { class, process } => process_step(keep, class, process),
        Actor::Pair(tcp) => Ok(pair_step(keep, tcp)),
        Actor::Class(class) => Ok(class_step(keep, class)),
    }
}

/// A step of a terminal: at its verb, or an ending or a restart that is forced upon it.
fn terminal_step<D: Disc>(keep: &Keep<D>, terminal: u32) -> Result<Option<Event>, Memory>
    requires there { terminal < length keep.now.system.terminals }
    requires known { IsKnown keep.now.system (kept_in D.told keep.now) }
    requires next { ForSome (standing keep.now.system (kept_in D.told keep.now) terminal)
        (MayStepAt keep.now.system (kept_in D.told keep.now) terminal) }
    ensures { IfOk result
        (IsStepFound keep.now.system (kept_in D.told keep.now) (Terminal terminal)) }
{
    if let Some(entry) = own_step(keep, terminal) {
        return Ok(Some(entry));
    }
    if may_lose(keep, terminal) {
        return Ok(Some(Event::End {
            terminal,
            ending: Ending::Lost,
        }));
    }
    caused_step(keep, terminal)
}

/// RESTART or END SUSPENDED of a terminal, where a cause for one holds.
fn caused_step<D: Disc>(keep: &Keep<D>, terminal: u32) -> Result<Option<Event>, Memory>
    requires there { terminal < length keep.now.system.terminals }
    requires known { IsKnown keep.now.system (kept_in D.told keep.now) }
    ensures { IfOk result (IsFoundOr keep.now.system (kept_in D.told keep.now) terminal
        (HasNoCausedStep keep.now.system (kept_in D.told keep.now) terminal)) }
{
    let Some(own) = running(keep, terminal) else {
        return Ok(None);
    };
    let restarts = keep.seat(terminal).restarts;
    let most = most_restarts(keep.system(), terminal);
    if restarts > most {
        return Ok(None);
    }
    let Some(cause) = find_cause(keep, &own)? else {
        return Ok(None);
    };
    if restarts < most {
        return Ok(Some(Event::Restart {
            terminal,
            unit: own.number,
            cause,
        }));
    }
    Ok(Some(Event::End {
        terminal,
        ending: Ending::Suspended(cause),
    }))
}

/// TAKE of a class.
fn class_step<D: Disc>(keep: &Keep<D>, class: u32) -> Option<Event>
    requires class { class < length keep.now.system.classes }
    ensures { IsStepFound keep.now.system (kept_in D.told keep.now) (Class class) result }
{
    match keep.taken(class) {
        Some((process, terminal)) => Some(Event::Take {
            class,
            process,
            terminal,
        }),
        None => None,
    }
}
