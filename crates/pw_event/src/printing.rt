ghost use Rattle.std.specs.Prelude.{◌≡◌, ◌∷◌, [], ◌++◌, map, IfOk, OnOk, codes};
ghost use Rattle.std.specs.Fmt.{decimal};
ghost use Rattle.std.specs.List.{AllByRecursion};
ghost use Rattle.pw_event.specs.declared.event.Event.TheVariants.{End, File, Reply, Restart};
ghost use Rattle.pw_event.specs.declared.event.Ending.TheVariants.{Suspended};
ghost use Rattle.pw_event.specs.Line.{IsNamed, IsWordOfSystem, spelling, names_of, op_text, mode_text, member_text, cause_words, ending_words, ending_text, event_text, refresh_number, sentence};

use crate::event::{Cause, Ending, Event};
use crate::names::{class_name, file_name, pair_name, terminal_name};
use crate::writing::{print_digits, print_number, print_refresh_number, print_word};
use pw_base::bytes::Bytes;
use pw_base::memory::Memory;
use pw_code::file::FileOp;
use pw_code::lock::{LockMode, LockRule};
use pw_code::system::System;
use std::alloc::Global;

/// The words of an entry, without its number in the log and without a line's end (docs/reference/DECK.md).
pub fn print_event(alloc: Global, system: &System, event: &Event) -> Result<Bytes, Memory>
    requires { IsNamed system.now event.now }
    ensures { IfOk result (λ text. text ≡ event_text system.now event.now) }
{
    let mut text = Bytes::new(alloc);
    print_event_words(&mut text, system, event)?;
    Ok(text)
}

/// Puts the words of an entry behind the text. An `Err` of this and of the other calls may leave a part of them there.
pub fn print_event_words(text: &mut Bytes, system: &System, event: &Event) -> Result<(), Memory>
    requires { IsNamed system.now event.now }
    ensures { OnOk result (text.new ≡ text.old ++ event_text system.now event.now) }
{
    match *event {
        Event::Show {
            terminal,
            phase,
            attempt,
            k,
        } => print_show(text, terminal_name(system, terminal), phase, attempt, k),
        Event::Key { terminal, k } => {
            print_named_number(text, b"KEY", terminal_name(system, terminal), k)
        }
        Event::CheckStart { terminal } => {
            print_check(text, terminal_name(system, terminal), b"START")
        }
        Event::CheckEnd { terminal } => print_check(text, terminal_name(system, terminal), b"END"),
        Event::CheckCopy { terminal } => {
            print_check(text, terminal_name(system, terminal), b"COPY")
        }
        Event::Applied { terminal } => {
            print_named(text, b"APPLIED", terminal_name(system, terminal))
        }
        Event::Begin {
            terminal,
            unit,
            restarts,
        } => print_begin(text, terminal_name(system, terminal), unit, restarts),
        Event::Send {
            terminal,
            unit,
            class,
        } => {
            let class = class_name(system, class);
            print_send(text, terminal_name(system, terminal), unit, class)
        }
        Event::Take {
            class,
            process,
            terminal,
        } => {
            let class = class_name(system, class);
            print_take(text, class, process, terminal_name(system, terminal))
        }
        Event::File {
            class,
            process,
            op,
            mode,
            file,
            status,
        } => print_operation(text, system, class, process, op, mode, file, status),
        Event::Reply {
            class,
            process,
            terminal,
            fault,
        } => print_answer(text, system, class, process, terminal, fault),
        Event::Again { terminal, unit } => {
            print_named_number(text, b"AGAIN", terminal_name(system, terminal), unit)
        }
        Event::Commit { terminal, unit } => {
            print_named_number(text, b"COMMIT", terminal_name(system, terminal), unit)
        }
        Event::Back { terminal, unit } => {
            print_named_number(text, b"BACK", terminal_name(system, terminal), unit)
        }
        Event::Restart {
            terminal,
            unit,
            cause,
        } => print_restart(text, system, terminal, unit, cause),
        Event::FailTcp { tcp, primary, line } => {
            print_fail_tcp(text, pair_name(system, tcp), member_text(primary), line)
        }
        Event::FailServer {
            class,
            process,
            line,
        } => print_fail_server(text, class_name(system, class), process, line),
        Event::Takeover { tcp } => print_named(text, b"TAKEOVER", pair_name(system, tcp)),
        Event::Raise { tcp } => print_named(text, b"RAISE", pair_name(system, tcp)),
        Event::End { terminal, ending } => print_end(text, system, terminal, ending),
    }
}

/// SHOW t phase.attempt.k.
fn print_show(text: &mut Bytes, name: &[u8], phase: u32, attempt: u32, k: u32) -> Result<(), Memory>
    ensures { OnOk result (text.new ≡ text.old
        ++ sentence (codes "SHOW" ∷ name.now ∷ refresh_number phase attempt k ∷ [])) }
{
    print_word(text, b"SHOW")?;
    print_word(text, name)?;
    print_refresh_number(text, phase, attempt, k)
}

/// A word and a name.
fn print_named(text: &mut Bytes, word: &[u8], name: &[u8]) -> Result<(), Memory>
    ensures { OnOk result (text.new ≡ text.old ++ sentence (word.now ∷ name.now ∷ [])) }
{
    print_word(text, word)?;
    text.extend(name)
}

/// A word, a name and a number.
fn print_named_number(text: &mut Bytes, word: &[u8], name: &[u8], number: u32) -> Result<(), Memory>
    ensures { OnOk result (text.new ≡ text.old
        ++ sentence (word.now ∷ name.now ∷ decimal number ∷ [])) }
{
    print_word(text, word)?;
    print_word(text, name)?;
    print_digits(text, number.into())
}

/// A word and a number.
fn print_numbered(text: &mut Bytes, word: &[u8], number: u64) -> Result<(), Memory>
    ensures { OnOk result (text.new ≡ text.old ++ sentence (word.now ∷ decimal number ∷ [])) }
{
    print_word(text, word)?;
    print_digits(text, number)
}

/// CHECK t START, END or COPY.
fn print_check(text: &mut Bytes, name: &[u8], part: &[u8]) -> Result<(), Memory>
    ensures { OnOk result (text.new ≡ text.old
        ++ sentence (codes "CHECK" ∷ name.now ∷ part.now ∷ [])) }
{
    print_word(text, b"CHECK")?;
    print_word(text, name)?;
    text.extend(part)
}

/// BEGIN t n r.
fn print_begin(text: &mut Bytes, name: &[u8], unit: u32, restarts: u32) -> Result<(), Memory>
    ensures { OnOk result (text.new ≡ text.old
        ++ sentence (codes "BEGIN" ∷ name.now ∷ decimal unit ∷ decimal restarts ∷ [])) }
{
    print_word(text, b"BEGIN")?;
    print_word(text, name)?;
    print_number(text, unit.into())?;
    print_digits(text, restarts.into())
}

/// SEND t n c.
fn print_send(text: &mut Bytes, name: &[u8], unit: u32, class: &[u8]) -> Result<(), Memory>
    ensures { OnOk result (text.new ≡ text.old
        ++ sentence (codes "SEND" ∷ name.now ∷ decimal unit ∷ class.now ∷ [])) }
{
    print_word(text, b"SEND")?;
    print_word(text, name)?;
    print_number(text, unit.into())?;
    text.extend(class)
}

/// A word, a class and the number of one of its processes, and the space after it.
fn print_process(text: &mut Bytes, word: &[u8], class: &[u8], process: u32) -> Result<(), Memory>
    ensures { OnOk result (text.new ≡ text.old
        ++ (word.now ++ 32 ∷ (class.now ++ 32 ∷ (decimal process ++ 32 ∷ [])))) }
{
    print_word(text, word)?;
    print_word(text, class)?;
    print_number(text, process.into())
}

/// TAKE c i t.
fn print_take(text: &mut Bytes, class: &[u8], process: u32, name: &[u8]) -> Result<(), Memory>
    ensures { OnOk result (text.new ≡ text.old
        ++ sentence (codes "TAKE" ∷ class.now ∷ decimal process ∷ name.now ∷ [])) }
{
    print_process(text, b"TAKE", class, process)?;
    text.extend(name)
}

/// An operation on a file, with its mode where readers share.
fn print_operation(
    text: &mut Bytes,
    system: &System,
    class: u32,
    process: u32,
    op: FileOp,
    mode: LockMode,
    file: u32,
    status: u16,
) -> Result<(), Memory>
    requires { IsNamed system.now (File class process op mode file status) }
    ensures { OnOk result (text.new ≡ text.old
        ++ event_text system.now (File class process op mode file status)) }
{
    let class = class_name(system, class);
    let (op, file) = (op_text(op), file_name(system, file));
    match system.rule {
        LockRule::ReadersShare => {
            print_file_with_mode(text, class, process, op, mode_text(mode), file, status)
        }
        LockRule::AllExclusive => print_file(text, class, process, op, file, status),
    }
}

/// FILE c i op m f s.
fn print_file_with_mode(
    text: &mut Bytes,
    class: &[u8],
    process: u32,
    op: &[u8],
    mode: &[u8],
    file: &[u8],
    status: u16,
) -> Result<(), Memory>
    ensures { OnOk result (text.new ≡ text.old
        ++ sentence (codes "FILE" ∷ class.now ∷ decimal process ∷ op.now ∷ mode.now ∷ file.now ∷ decimal status ∷ [])) }
{
    print_process(text, b"FILE", class, process)?;
    print_word(text, op)?;
    print_word(text, mode)?;
    print_word(text, file)?;
    print_digits(text, status.into())
}

/// FILE c i op f s.
fn print_file(
    text: &mut Bytes,
    class: &[u8],
    process: u32,
    op: &[u8],
    file: &[u8],
    status: u16,
) -> Result<(), Memory>
    ensures { OnOk result (text.new ≡ text.old
        ++ sentence (codes "FILE" ∷ class.now ∷ decimal process ∷ op.now ∷ file.now ∷ decimal status ∷ [])) }
{
    print_process(text, b"FILE", class, process)?;
    print_word(text, op)?;
    print_word(text, file)?;
    print_digits(text, status.into())
}

/// The word of an operation; that of a locking read is the read's.
fn op_text(op: FileOp) -> &'static [u8]
    ensures { result.now ≡ op_text op }
{
    match op {
        FileOp::Read | FileOp::ReadLock => b"READ",
        FileOp::Next | FileOp::NextLock => b"NEXT",
        FileOp::Write => b"WRITE",
        FileOp::Rewrite => b"REWRITE",
        FileOp::Delete => b"DELETE",
    }
}

/// The letter of a mode.
fn mode_text(mode: LockMode) -> &'static [u8]
    ensures { result.now ≡ mode_text mode }
{
    match mode {
        LockMode::Shared => b"S",
        LockMode::Exclusive => b"X",
    }
}

/// A process's reply or run fault.
fn print_answer(
    text: &mut Bytes,
    system: &System,
    class: u32,
    process: u32,
    terminal: u32,
    fault: Option<u16>,
) -> Result<(), Memory>
    requires { IsNamed system.now (Reply class process terminal fault) }
    ensures { OnOk result (text.new ≡ text.old
        ++ event_text system.now (Reply class process terminal fault)) }
{
    let class = class_name(system, class);
    let name = terminal_name(system, terminal);
    match fault {
        None => print_reply(text, class, process, name),
        Some(fault) => print_fault(text, class, process, name, fault),
    }
}

/// REPLY c i t OK.
fn print_reply(text: &mut Bytes, class: &[u8], process: u32, name: &[u8]) -> Result<(), Memory>
    ensures { OnOk result (text.new ≡ text.old
        ++ sentence (codes "REPLY" ∷ class.now ∷ decimal process ∷ name.now ∷ codes "OK" ∷ [])) }
{
    print_process(text, b"REPLY", class, process)?;
    print_word(text, name)?;
    text.extend(b"OK")
}

/// REPLY c i t FAULT x.
fn print_fault(
    text: &mut Bytes,
    class: &[u8],
    process: u32,
    name: &[u8],
    fault: u16,
) -> Result<(), Memory>
    ensures { OnOk result (text.new ≡ text.old
        ++ sentence (codes "REPLY" ∷ class.now ∷ decimal process ∷ name.now ∷ codes "FAULT" ∷ decimal fault ∷ [])) }
{
    print_process(text, b"REPLY", class, process)?;
    print_word(text, name)?;
    print_numbered(text, b"FAULT", fault.into())
}

/// RESTART t n cause.
fn print_restart(
    text: &mut Bytes,
    system: &System,
    terminal: u32,
    unit: u32,
    cause: Cause,
) -> Result<(), Memory>
    requires { IsNamed system.now (Restart terminal unit cause) }
    ensures { OnOk result (text.new ≡ text.old
        ++ event_text system.now (Restart terminal unit cause)) }
{
    print_word(text, b"RESTART")?;
    print_word(text, terminal_name(system, terminal))?;
    print_number(text, unit.into())?;
    print_cause(text, system, cause)
}

/// Puts the words of a cause behind the text.
fn print_cause(text: &mut Bytes, system: &System, cause: Cause) -> Result<(), Memory>
    requires { AllByRecursion (IsWordOfSystem system.now) (cause_words cause) }
    ensures { OnOk result (text.new ≡ text.old
        ++ sentence (map (spelling (names_of system.now)) (cause_words cause))) }
{
    match cause {
        Cause::Older { terminal, unit } => {
            print_named_number(text, b"OLDER", terminal_name(system, terminal), unit)
        }
        Cause::Takeover(tcp) => print_named(text, b"TAKEOVER", pair_name(system, tcp)),
        Cause::Server(line) => print_numbered(text, b"SERVER", line.into()),
        Cause::Redo => text.extend(b"REDO"),
    }
}

/// FAIL TCP p PRIMARY k, or FAIL TCP p BACKUP k.
fn print_fail_tcp(text: &mut Bytes, name: &[u8], member: &[u8], line: u32) -> Result<(), Memory>
    ensures { OnOk result (text.new ≡ text.old
        ++ sentence (codes "FAIL" ∷ codes "TCP" ∷ name.now ∷ member.now ∷ decimal line ∷ [])) }
{
    print_word(text, b"FAIL")?;
    print_word(text, b"TCP")?;
    print_word(text, name)?;
    print_word(text, member)?;
    print_digits(text, line.into())
}

/// The word of a member of a pair.
fn member_text(primary: bool) -> &'static [u8]
    ensures { result.now ≡ member_text primary }
{
    if primary { b"PRIMARY" } else { b"BACKUP" }
}

/// FAIL SERVER c i k.
fn print_fail_server(text: &mut Bytes, name: &[u8], process: u32, line: u32) -> Result<(), Memory>
    ensures { OnOk result (text.new ≡ text.old
        ++ sentence (codes "FAIL" ∷ codes "SERVER" ∷ name.now ∷ decimal process ∷ decimal line ∷ [])) }
{
    print_word(text, b"FAIL")?;
    print_word(text, b"SERVER")?;
    print_word(text, name)?;
    print_number(text, process.into())?;
    print_digits(text, line.into())
}

/// END t ending.
fn print_end(text: &mut Bytes, system: &System, terminal: u32, ending: Ending) -> Result<(), Memory>
    requires { IsNamed system.now (End terminal ending) }
    ensures { OnOk result (text.new ≡ text.old ++ event_text system.now (End terminal ending)) }
{
    print_word(text, b"END")?;
    print_word(text, terminal_name(system, terminal))?;
    print_ending(text, system, ending)
}

/// Puts the words of an ending behind the text. The terminals and pairs of its cause are the system's.
pub fn print_ending(text: &mut Bytes, system: &System, ending: Ending) -> Result<(), Memory>
    requires { AllByRecursion (IsWordOfSystem system.now) (ending_words ending) }
    ensures { OnOk result (text.new ≡ text.old ++ ending_text system.now ending) }
{
    match ending {
        Ending::Stopped => text.extend(b"STOPPED"),
        Ending::NoEntries => text.extend(b"NOENTRIES"),
        Ending::Fault(fault) => print_numbered(text, b"FAULT", fault.into()),
        Ending::Suspended(cause) => print_suspended(text, system, cause),
        Ending::Lost => text.extend(b"LOST"),
    }
}

/// SUSPENDED cause.
fn print_suspended(text: &mut Bytes, system: &System, cause: Cause) -> Result<(), Memory>
    requires { AllByRecursion (IsWordOfSystem system.now) (cause_words cause) }
    ensures { OnOk result (text.new ≡ text.old ++ ending_text system.now (Suspended cause)) }
{
    print_word(text, b"SUSPENDED")?;
    print_cause(text, system, cause)
}
