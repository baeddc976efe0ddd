//! A step of a process that works on a request.

ghost use Rattle.std.specs.Prelude.{◌≡◌, IfOk, Some};
ghost use Rattle.pw_class.specs.Queue.{at_process};
ghost use Rattle.pw_world_store.specs.Keeps.{kept_in};
ghost use Rattle.pw_world_state.specs.Changes.{unit_at};
ghost use Rattle.pw_actor_queue.specs.declared.actor.Actor.TheVariants.{Process};
ghost use Rattle.pw_entry_tests.specs.Actors.{IsActorIn};
ghost use Rattle.pw_entry_tests.specs.Calls.{AsksCall, IsAtVerb};
ghost use Rattle.pw_entry_tests.specs.Known.{IsKnown};
ghost use Rattle.pw_entry_tests.specs.Steps.{IsStepFound};
ghost use Rattle.pw_tmf.specs.Answers.{Foresees};
ghost use Rattle.pw_tmf.specs.Operation.{IsCall};
ghost use Rattle.pw_tmf.specs.Units.{IsRunning};

use crate::classes::verb_at;
use crate::verbs::plain;
use pw_base::memory::Memory;
use pw_class::request::Request;
use pw_code::file::FileCall;
use pw_code::lock::mode_of;
use pw_code::verb::Verb;
use pw_event::event::Event;
use pw_tmf::answer::Foreseen;
use pw_tmf::disc::Disc;
use pw_world_store::keep::Keep;

/// FILE or REPLY of a process.
pub fn process_step<D: Disc>(
    keep: &Keep<D>,
    class: u32,
    process: u32,
) -> Result<Option<Event>, Memory>
    requires actor { IsActorIn keep.now.system (Process class process) }
    requires known { IsKnown keep.now.system (kept_in D.told keep.now) }
    ensures { IfOk result
        (IsStepFound keep.now.system (kept_in D.told keep.now) (Process class process)) }
{
    let Some(request) = keep.request(class, process) else {
        return Ok(None);
    };
    match verb_at(keep, class, process) {
        Some(verb) => step_at(keep, class, process, request, verb),
        None => Ok(None),
    }
}

/// FILE or REPLY of a process that works on this request, and whose server stands at this verb.
fn step_at<D: Disc>(
    keep: &Keep<D>,
    class: u32,
    process: u32,
    request: &Request,
    verb: &Verb,
) -> Result<Option<Event>, Memory>
    requires actor { IsActorIn keep.now.system (Process class process) }
    requires known { IsKnown keep.now.system (kept_in D.told keep.now) }
    requires works { at_process ((kept_in D.told keep.now).queues class) process ≡ Some request.now }
    requires stands { IsAtVerb keep.now.system (kept_in D.told keep.now) class process verb.now }
    ensures { IfOk result
        (IsStepFound keep.now.system (kept_in D.told keep.now) (Process class process)) }
{
    match verb {
        Verb::File(call) => file_step(keep, class, process, request, call),
        Verb::Reply(_) => Ok(Some(Event::Reply {
            class,
            process,
            terminal: request.terminal,
            fault: None,
        })),
        Verb::Fault(code) => Ok(Some(Event::Reply {
            class,
            process,
            terminal: request.terminal,
            fault: Some(*code),
        })),
        _ => Ok(None),
    }
}

/// FILE of a process whose server stands at this operation.
fn file_step<D: Disc>(
    keep: &Keep<D>,
    class: u32,
    process: u32,
    request: &Request,
    call: &FileCall,
) -> Result<Option<Event>, Memory>
    requires actor { IsActorIn keep.now.system (Process class process) }
    requires known { IsKnown keep.now.system (kept_in D.told keep.now) }
    requires asks { AsksCall keep.now.system (kept_in D.told keep.now) class process
        request.now call.now }
    ensures { IfOk result
        (IsStepFound keep.now.system (kept_in D.told keep.now) (Process class process)) }
{
    let foreseen = foresee_for(keep, request, call)?;
    match foreseen {
        Foreseen::Done(status) => Ok(Some(Event::File {
            class,
            process,
            op: plain(call.op),
            mode: mode_of(keep.system().rule, &call.op),
            file: call.file,
            status,
        })),
        Foreseen::Conflict(_) => Ok(None),
    }
}

/// What the disc would answer the operation of a request now.
fn foresee_for<D: Disc>(
    keep: &Keep<D>,
    request: &Request,
    call: &FileCall,
) -> Result<Foreseen, Memory>
    requires known { IsKnown keep.now.system (kept_in D.told keep.now) }
    requires runs { IsRunning (kept_in D.told keep.now).disc
        (unit_at (kept_in D.told keep.now) request.now.terminal request.now.unit) }
    requires call { IsCall (kept_in D.told keep.now).disc call.now }
    ensures { IfOk result (λ foreseen. Foresees foreseen (kept_in D.told keep.now).disc
        (unit_at (kept_in D.told keep.now) request.now.terminal request.now.unit) call.now) }
{
    match keep.seat(request.terminal).unit {
        Some(unit) => keep.foresee(&unit, call),
        None => unreachable!(),
    }
}
