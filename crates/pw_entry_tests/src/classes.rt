//! The entries of a class and of its processes.

ghost use Rattle.std.specs.Prelude.{◌≡◌, ◌<◌, ◌≤◌, IfOk, length};
ghost use Rattle.std.specs.Borrow.{Bor};
ghost use Rattle.std.specs.Option.{option_copied, option_map};
ghost use Rattle.pw_class.specs.declared.request.Request.{Request as SeenRequest};
ghost use Rattle.pw_code.specs.declared.file.FileCall.{FileCall as SeenCall};
ghost use Rattle.pw_world_store.specs.Keeps.{kept_in};
ghost use Rattle.pw_world_state.specs.Changes.{unit_at};
ghost use Rattle.pw_world_state.specs.ClassTests.{is_call_for, may_file, may_reply, may_take};
ghost use Rattle.pw_world_state.specs.Read.{IsServerRead};
ghost use Rattle.pw_entry_tests.specs.Calls.{IsCallFound, IsVerbAt, call_in, is_done};
ghost use Rattle.pw_entry_tests.specs.Known.{IsKnown};
ghost use Rattle.pw_tmf.specs.Operation.{IsCall};
ghost use Rattle.pw_tmf.specs.Units.{IsRunning};

use crate::verbs::{plain, replies};
use pw_base::memory::Memory;
use pw_class::request::Request;
use pw_code::file::{FileCall, FileOp};
use pw_code::lock::{LockMode, mode_of};
use pw_code::verb::Verb;
use pw_tmf::answer::Foreseen;
use pw_tmf::disc::Disc;
use pw_world_store::keep::Keep;

/// A file operation as an entry of the log tells it.
#[derive(Clone, Copy)]
pub struct ToldOperation {
    pub op: FileOp,
    pub mode: LockMode,
    pub file: u32,
    pub status: u16,
}

/// TAKE: the first request that waits is of the terminal, and the process is the free one of smallest
/// number.
pub fn may_take<D: Disc>(keep: &Keep<D>, class: u32, process: u32, terminal: u32) -> bool
    requires class { class < length keep.now.system.classes }
    ensures { result ≡ may_take (kept_in D.told keep.now) class process terminal }
{
    match keep.taken(class) {
        Some((free, first)) => free == process && first == terminal,
        None => false,
    }
}

/// The verb at which the server in a process stands, if one works there.
pub fn verb_at<D: Disc>(keep: &Keep<D>, class: u32, process: u32) -> Option<&Verb>
    requires class { class < length keep.now.system.classes }
    requires process { 1 ≤ process }
    ensures { IsVerbAt keep.now.system (kept_in D.told keep.now) class process (option_copied result) }
{
    let job = keep.job(class, process)?;
    job.verb.as_ref()
}

/// The request of a busy process and the operation on a file at which its server stands, if it does.
pub fn call_at<D: Disc>(keep: &Keep<D>, class: u32, process: u32) -> Option<(&Request, &FileCall)>
    requires class { class < length keep.now.system.classes }
    requires process { 1 ≤ process }
    ensures { IsCallFound keep.now.system (kept_in D.told keep.now) class process
        (option_map (λ (found : Bor SeenRequest × Bor SeenCall). (found.0.now, found.1.now)) result) }
{
    let request = keep.request(class, process)?;
    match file_call(verb_at(keep, class, process)) {
        Some(call) => Some((request, call)),
        None => None,
    }
}

/// The operation on a file at which a verb stands, if it does.
fn file_call(verb: Option<&Verb>) -> Option<&FileCall>
    ensures { option_copied result ≡ call_in (option_copied verb.entry) }
{
    match verb {
        Some(Verb::File(call)) => Some(call),
        _ => None,
    }
}

/// FILE: the server in the process stands at this operation, and no other unit holds a lock that
/// conflicts with its own.
pub fn may_file<D: Disc>(
    keep: &Keep<D>,
    class: u32,
    process: u32,
    told: &ToldOperation,
) -> Result<bool, Memory>
    requires class { class < length keep.now.system.classes }
    requires process { 1 ≤ process }
    requires known { IsKnown keep.now.system (kept_in D.told keep.now) }
    ensures { IfOk result (λ passes. IsServerRead (kept_in D.told keep.now) class process
        → passes ≡ may_file keep.now.system (kept_in D.told keep.now) class process
        told.now.op told.now.mode told.now.file told.now.status) }
{
    match call_at(keep, class, process) {
        Some((request, call)) => is_call(keep, request, call, told),
        None => Ok(false),
    }
}

/// Whether the call is this operation, and no other unit holds a lock that conflicts with its own.
fn is_call<D: Disc>(
    keep: &Keep<D>,
    request: &Request,
    call: &FileCall,
    told: &ToldOperation,
) -> Result<bool, Memory>
    requires known { IsKnown keep.now.system (kept_in D.told keep.now) }
    requires runs { IsRunning (kept_in D.told keep.now).disc
        (unit_at (kept_in D.told keep.now) request.now.terminal request.now.unit) }
    requires call { IsCall (kept_in D.told keep.now).disc call.now }
    ensures { IfOk result (λ passes. passes ≡ is_call_for (kept_in D.told keep.now)
        told.now.op told.now.mode told.now.file told.now.status request.now call.now) }
{
    let mode = mode_of(keep.system().rule, &call.op);
    if told.op != plain(call.op) || told.mode != mode || told.file != call.file {
        return Ok(false);
    }
    match keep.seat(request.terminal).unit {
        Some(unit) => Ok(is_done(keep.foresee(&unit, call)?, told.status)),
        None => Ok(false),
    }
}

/// Whether what is foreseen is that the operation is done with this status.
fn is_done(foreseen: Foreseen, status: u16) -> bool
    ensures { result ≡ is_done foreseen status }
{
    match foreseen {
        Foreseen::Done(found) => status == found,
        Foreseen::Conflict(_) => false,
    }
}

/// REPLY: the server in the process works for the terminal, and replies or has this run fault.
pub fn may_reply<D: Disc>(
    keep: &Keep<D>,
    class: u32,
    process: u32,
    terminal: u32,
    fault: Option<u16>,
) -> bool
    requires class { class < length keep.now.system.classes }
    requires process { 1 ≤ process }
    ensures { IsServerRead (kept_in D.told keep.now) class process
        → result ≡ may_reply keep.now.system (kept_in D.told keep.now) class process terminal fault }
{
    let Some(request) = keep.request(class, process) else {
        return false;
    };
    match verb_at(keep, class, process) {
        Some(verb) => request.terminal == terminal && replies(verb, fault),
        None => false,
    }
}
