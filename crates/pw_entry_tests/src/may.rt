//! Whether an entry passes the test of its kind.

ghost use Rattle.std.specs.Prelude.{◌≡◌, ◌<◌, [], IfOk, length};
ghost use Rattle.pw_event.specs.declared.event.Event.TheVariants.{End};
ghost use Rattle.pw_world_store.specs.Keeps.{kept_in};
ghost use Rattle.pw_world_state.specs.May.{IsThere, may};
ghost use Rattle.pw_world_state.specs.Meeting.{IsStepRead};
ghost use Rattle.pw_laws.specs.legal.Values.{is_line_of_member, is_line_of_process, some_with};
ghost use Rattle.pw_paired.specs.Failure.{fail_line};
ghost use Rattle.pw_entry_tests.specs.Known.{IsKnown};

use crate::causes::{may_restart, may_suspend};
use crate::classes::{ToldOperation, may_file, may_reply, may_take};
use crate::pairs::{may_apply, may_copy, may_lose, may_raise, may_take_over};
use crate::terminals::{
    may_again, may_end_entries, may_fault, may_key, may_send, may_show, may_stop,
};
use crate::units::{may_back, may_begin, may_check_end, may_check_start, may_commit};
use pw_base::memory::Memory;
use pw_event::event::{Ending, Event};
use pw_event::script::FailLine;
use pw_tmf::disc::Disc;
use pw_world_store::keep::Keep;

/// Whether an entry passes the test of its kind: where the programs of which it speaks have been
/// read, it is a step by its kind exactly there. A FAIL entry is one of the script. What it asks of
/// the disc may want memory.
pub fn may<D: Disc>(keep: &Keep<D>, script: &[FailLine], entry: &Event) -> Result<bool, Memory>
    requires there { IsThere keep.now.system entry.now }
    requires known { IsKnown keep.now.system (kept_in D.told keep.now) }
    ensures { IfOk result (λ passes. IsStepRead keep.now.system (kept_in D.told keep.now) entry.now
        → passes ≡ may keep.now.system script.now (kept_in D.told keep.now) entry.now) }
{
    match *entry {
        Event::Show {
            terminal,
            phase,
            attempt,
            k,
        } => Ok(may_show(keep, terminal, phase, attempt, k)),
        Event::Key { terminal, k } => Ok(may_key(keep, terminal, k)),
        Event::CheckStart { terminal } => Ok(may_check_start(keep, terminal)),
        Event::CheckEnd { terminal } => Ok(may_check_end(keep, terminal)),
        Event::CheckCopy { terminal } => Ok(may_copy(keep, terminal)),
        Event::Applied { terminal } => Ok(may_apply(keep, terminal)),
        Event::Begin {
            terminal,
            unit,
            restarts,
        } => Ok(may_begin(keep, terminal, unit, restarts)),
        Event::Send {
            terminal,
            unit,
            class,
        } => Ok(may_send(keep, terminal, unit, class)),
        Event::Take {
            class,
            process,
            terminal,
        } => Ok(may_take(keep, class, process, terminal)),
        Event::File {
            class,
            process,
            op,
            mode,
            file,
            status,
        } => may_file(
            keep,
            class,
            process,
            &ToldOperation {
                op,
                mode,
                file,
                status,
            },
        ),
        Event::Reply {
            class,
            process,
            terminal,
            fault,
        } => Ok(may_reply(keep, class, process, terminal, fault)),
        Event::Again { terminal, unit } => Ok(may_again(keep, terminal, unit)),
        Event::Commit { terminal, unit } => Ok(may_commit(keep, terminal, unit)),
        Event::Back { terminal, unit } => Ok(may_back(keep, terminal, unit)),
        Event::Restart {
            terminal,
            unit,
            cause,
        } => may_restart(keep, terminal, unit, cause),
        Event::FailTcp { tcp, primary, line } => Ok(may_fail_tcp(script, tcp, primary, line)),
        Event::FailServer {
            class,
            process,
            line,
        } => Ok(may_fail_server(script, class, process, line)),
        Event::Takeover { tcp } => Ok(may_take_over(keep, tcp)),
        Event::Raise { tcp } => Ok(may_raise(keep, tcp)),
        Event::End { terminal, ending } => may_end(keep, terminal, ending),
    }
}

/// END, with each ending.
fn may_end<D: Disc>(keep: &Keep<D>, terminal: u32, ending: Ending) -> Result<bool, Memory>
    requires there { terminal < length keep.now.system.terminals }
    requires known { IsKnown keep.now.system (kept_in D.told keep.now) }
    ensures { IfOk result (λ passes. passes
        ≡ may keep.now.system [] (kept_in D.told keep.now) (End terminal ending)) }
{
    match ending {
        Ending::Stopped => Ok(may_stop(keep, terminal)),
        Ending::NoEntries => Ok(may_end_entries(keep, terminal)),
        Ending::Fault(fault) => Ok(may_fault(keep, terminal, fault)),
        Ending::Suspended(cause) => may_suspend(keep, terminal, cause),
        Ending::Lost => Ok(may_lose(keep, terminal)),
    }
}

/// The line of a script by its number, from 1.
fn line_at(script: &[FailLine], number: u32) -> Option<FailLine>
    ensures { result ≡ fail_line script.now number }
{
    if number == 0 {
        return None;
    }
    script.get(number as usize - 1).copied()
}

/// FAIL TCP: the line is one of this member of the pair.
fn may_fail_tcp(script: &[FailLine], tcp: u32, primary: bool, line: u32) -> bool
    ensures { result ≡ some_with (is_line_of_member tcp primary) (fail_line script.now line) }
{
    match line_at(script, line) {
        Some(
            FailLine::Tcp {
                tcp: own,
                primary: member,
                ..
            },
        ) => own == tcp && member == primary,
        _ => false,
    }
}

/// FAIL SERVER: the line is one of this process of the class.
fn may_fail_server(script: &[FailLine], class: u32, process: u32, line: u32) -> bool
    ensures { result ≡ some_with (is_line_of_process class process) (fail_line script.now line) }
{
    match line_at(script, line) {
        Some(
            FailLine::Server {
                class: own,
                process: place,
                ..
            },
        ) => own == class && place == process,
        _ => false,
    }
}
