//! TAKE, FILE and REPLY: the servers in processes.

ghost use Rattle.std.specs.Prelude.{◌≡◌, ◌<◌, IfErr, IfOk, IsSome, None, OnErr, OnOk, Some, length, slice_get};
ghost use Rattle.pw_entry_effects.specs.Can.{CanAnswer, CanOperate, CanReply, CanTake};
ghost use Rattle.pw_entry_effects.specs.Verbs.{one_send};
ghost use Rattle.pw_class.specs.Queue.{at_process};
ghost use Rattle.pw_code.specs.Valid.{IsValid};
ghost use Rattle.pw_world_store.specs.Keeps.{IsChanged, IsRefused, JobHasVerb, job_of, jobs_at, kept_in};
ghost use Rattle.pw_world_state.specs.Changes.{free_process, unit_at};
ghost use Rattle.pw_world_state.specs.Entered.{answer_terminal, entered_file, entered_reply, entered_take, replies_last, reply_by, started_on};
ghost use Rattle.pw_tmf.specs.Units.{IsRunning};

use crate::verbs::go_behind;
use pw_base::bytes::Bytes;
use pw_base::memory::Memory;
use pw_code::context::Context;
use pw_code::verb::{Answer, Verb};
use pw_machine::run::{answer, start_server};
use pw_tmf::answer::{DiscFault, FileAnswer};
use pw_tmf::disc::Disc;
use pw_world_store::keep::Keep;

/// The context of a server that starts on the first waiting request of its class.
fn started<D: Disc>(
    keep: &Keep<D>,
    class: u32,
    process: u32,
    terminal: u32,
) -> Result<Context, Memory>
    requires valid { IsValid keep.now.system }
    requires can { CanTake keep.now.system (kept_in D.told keep.now) class process terminal }
    ensures { IfOk result (λ context. context
        ≡ started_on keep.now.system (slice_get keep.now.system.classes class) ((kept_in D.told keep.now).queues class).waiting) }
{
    let server = keep.system().classes.as_slice()[class as usize].server;
    match keep.first(class) {
        Some(request) => start_server(
            request.message.allocator(),
            keep.system(),
            server,
            request.message.as_slice(),
        ),
        None => unreachable!(),
    }
}

/// TAKE: a process starts on the first waiting request.
pub fn take<D: Disc>(
    keep: &mut Keep<D>,
    class: u32,
    process: u32,
    terminal: u32,
) -> Result<(), Memory>
    requires valid { IsValid keep.old.system }
    requires can { CanTake keep.old.system (kept_in D.told keep.old) class process terminal }
    ensures ok { OnOk result (IsChanged D.told (entered_take keep.old.system class process) keep.old keep.new) }
    ensures err { OnErr result (keep.new ≡ keep.old) }
{
    let context = started(keep, class, process, terminal)?;
    keep.take(class, context);
    Ok(())
}

/// A copy of the context of the server in a process.
fn context_of<D: Disc>(keep: &Keep<D>, class: u32, process: u32) -> Result<Context, Memory>
    requires { CanOperate keep.now.system (kept_in D.told keep.now) class process }
    ensures context { (can : CanOperate keep.now.system (kept_in D.told keep.now) class process)
        → IfOk result (λ context. context ≡ can.context) }
    ensures verb { JobHasVerb keep.now.system (job_of (jobs_at keep.now.jobs class) process) }
{
    match keep.job(class, process) {
        Some(job) => job.context.duplicate(),
        None => unreachable!(),
    }
}

/// FILE: the operation is done, and the server goes on with its answer.
pub fn file<D: Disc>(keep: &mut Keep<D>, class: u32, process: u32) -> Result<(), DiscFault>
    requires valid { IsValid keep.old.system }
    requires can { CanOperate keep.old.system (kept_in D.told keep.old) class process }
    ensures ok { OnOk result (IsChanged D.told (entered_file keep.old.system class process) keep.old keep.new) }
    ensures err { IfErr result (λ fault. IsRefused D.told fault keep.old keep.new) }
{
    let mut context = context_of(keep, class, process)?;
    match keep.operate(class, process) {
        FileAnswer::Done { status, content } => {
            answer(
                keep.system(),
                &mut context,
                Answer::FileDone { status, content },
            )?;
            keep.answer_job(class, process, context);
            Ok(())
        }
        FileAnswer::Conflict(_) => unreachable!(),
        FileAnswer::Failed => Err(DiscFault::Failed),
        FileAnswer::Memory => Err(DiscFault::Memory),
    }
}

/// A copy of the reply of the server in a process.
fn reply_of<D: Disc>(
    keep: &Keep<D>,
    class: u32,
    process: u32,
    terminal: u32,
) -> Result<Bytes, Memory>
    requires { CanReply keep.now.system (kept_in D.told keep.now) class process terminal None }
    ensures { IfOk result (λ reply. reply ≡ reply_by keep.now.system ((kept_in D.told keep.now).jobs class process)) }
{
    match keep.job(class, process) {
        Some(job) => match &job.verb {
            Some(Verb::Reply(reply)) => reply.copy(reply.allocator()),
            Some(_) => Ok(Bytes::new(job.context.screen.cells.allocator())),
            None => unreachable!(),
        },
        None => unreachable!(),
    }
}

/// The unit of one SEND that ends with its reply: the terminal's program is in no transaction.
fn one_send<D: Disc>(keep: &Keep<D>, terminal: u32) -> Option<u32>
    requires { CanAnswer keep.now.system (kept_in D.told keep.now) terminal }
    ensures { result ≡ one_send ((kept_in D.told keep.now).terminals terminal).ready }
{
    match &keep.seat(terminal).ready {
        Some(at) if !at.context.in_unit => Some(at.context.units + 1),
        _ => None,
    }
}

/// A process is free, and the terminal's program goes on with an answer. It takes no memory.
fn go_on<D: Disc>(keep: &mut Keep<D>, class: u32, process: u32, terminal: u32, answer: Answer)
    requires valid { IsValid keep.old.system }
    requires can { CanAnswer keep.old.system (kept_in D.told keep.old) terminal }
    requires class { class < length keep.old.system.classes }
    requires busy { IsSome (at_process ((kept_in D.told keep.old).queues class) process) }
    ensures { IsChanged D.told
        (λ kept. answer_terminal keep.old.system terminal answer (free_process class process kept)) keep.old keep.new }
{
    go_behind(keep, terminal, answer);
    keep.free(class, process);
}

/// A process is free, and its reply ends a unit of one SEND.
fn end_send<D: Disc>(
    keep: &mut Keep<D>,
    class: u32,
    process: u32,
    terminal: u32,
    unit: u32,
    reply: Bytes,
) -> Result<(), DiscFault>
    requires valid { IsValid keep.old.system }
    requires can { CanAnswer keep.old.system (kept_in D.told keep.old) terminal }
    requires class { class < length keep.old.system.classes }
    requires busy { IsSome (at_process ((kept_in D.told keep.old).queues class) process) }
    requires runs { IsRunning (D.told keep.old.disc) (unit_at (kept_in D.told keep.old) terminal unit) }
    ensures ok { OnOk result (IsChanged D.told
        (replies_last keep.old.system class process terminal unit reply) keep.old keep.new) }
    ensures err { IfErr result (λ fault. IsRefused D.told fault keep.old keep.new) }
{
    let kept = reply.copy(reply.allocator())?;
    keep.commit(terminal, unit, Some(kept))?;
    go_behind(keep, terminal, Answer::Replied(reply));
    keep.free(class, process);
    Ok(())
}

/// REPLY of a reply: outside a transaction it ends the unit of one SEND.
fn reply_with<D: Disc>(
    keep: &mut Keep<D>,
    class: u32,
    process: u32,
    terminal: u32,
) -> Result<(), DiscFault>
    requires valid { IsValid keep.old.system }
    requires can { CanReply keep.old.system (kept_in D.told keep.old) class process terminal None }
    ensures ok { OnOk result (IsChanged D.told (entered_reply keep.old.system class process terminal None) keep.old keep.new) }
    ensures err { IfErr result (λ fault. IsRefused D.told fault keep.old keep.new) }
{
    let reply = reply_of(keep, class, process, terminal)?;
    match one_send(keep, terminal) {
        Some(unit) => end_send(keep, class, process, terminal, unit, reply),
        None => {
            go_on(keep, class, process, terminal, Answer::Replied(reply));
            Ok(())
        }
    }
}

/// REPLY: the process is free, and its terminal's program goes on with the reply, or with the run
/// fault of the server.
pub fn reply<D: Disc>(
    keep: &mut Keep<D>,
    class: u32,
    process: u32,
    terminal: u32,
    fault: Option<u16>,
) -> Result<(), DiscFault>
    requires valid { IsValid keep.old.system }
    requires can { CanReply keep.old.system (kept_in D.told keep.old) class process terminal fault }
    ensures ok { OnOk result (IsChanged D.told (entered_reply keep.old.system class process terminal fault) keep.old keep.new) }
    ensures err { IfErr result (λ refused. IsRefused D.told refused keep.old keep.new) }
{
    match fault {
        None => reply_with(keep, class, process, terminal),
        Some(code) => {
            go_on(keep, class, process, terminal, Answer::Failed(code));
            Ok(())
        }
    }
}
