ghost use Rattle.std.specs.Prelude.{◌≡◌, map};
ghost use Rattle.pw_event.specs.Parsing.{show, terminal_and_number, check, applied, begin, send, take_line_event, file_at, file_line, fault_of, reply, fail_tcp, fail_server, failure_of, fail, takeover, raise};

use crate::event::Event;
use crate::fault::EventFault;
use crate::fields::{code, counted, member, mode, named, number, op, refresh};
use crate::keyword::Keyword;
use crate::system_names::SystemNames;
use pw_code::lock::{LockMode, LockRule};

/// SHOW t p.a.k, behind its first word, as are those below.
#[tactic(auto, unfolding(crate::specs::Parsing::show))]
pub fn show(names: &SystemNames, words: &[&[u8]]) -> Result<Event, EventFault>
    ensures { result ≡ show names.now (map (λ word. word.now) words.now) }
{
    let [name, number] = words else {
        return Err(EventFault::Bad);
    };
    let (phase, attempt, k) = refresh(number)?;
    let terminal = names.terminal(name)?;
    Ok(Event::Show {
        terminal,
        phase,
        attempt,
        k,
    })
}

/// The terminal and the number of KEY t k, AGAIN t n, COMMIT t n and BACK t n.
#[tactic(auto, unfolding(crate::specs::Parsing::terminal_and_number))]
pub fn terminal_and_number(names: &SystemNames, words: &[&[u8]]) -> Result<(u32, u32), EventFault>
    ensures { result ≡ terminal_and_number names.now (map (λ word. word.now) words.now) }
{
    let [name, n] = words else {
        return Err(EventFault::Bad);
    };
    let n = number(n, u32::MAX)?;
    let terminal = names.terminal(name)?;
    Ok((terminal, n))
}

/// CHECK t START, END or COPY.
#[tactic(auto, unfolding(crate::specs::Parsing::check))]
pub fn check(names: &SystemNames, words: &[&[u8]]) -> Result<Event, EventFault>
    ensures { result ≡ check names.now (map (λ word. word.now) words.now) }
{
    let [name, word] = words else {
        return Err(EventFault::Bad);
    };
    match Keyword::of(word)? {
        Keyword::Start => {
            let terminal = names.terminal(name)?;
            Ok(Event::CheckStart { terminal })
        }
        Keyword::End => {
            let terminal = names.terminal(name)?;
            Ok(Event::CheckEnd { terminal })
        }
        Keyword::Copy => {
            let terminal = names.terminal(name)?;
            Ok(Event::CheckCopy { terminal })
        }
        _ => Err(EventFault::Bad),
    }
}

/// APPLIED t.
#[tactic(auto, unfolding(crate::specs::Parsing::applied))]
pub fn applied(names: &SystemNames, words: &[&[u8]]) -> Result<Event, EventFault>
    ensures { result ≡ applied names.now (map (λ word. word.now) words.now) }
{
    let [name] = words else {
        return Err(EventFault::Bad);
    };
    let terminal = names.terminal(name)?;
    Ok(Event::Applied { terminal })
}

/// BEGIN t n r.
#[tactic(auto, unfolding(crate::specs::Parsing::begin))]
pub fn begin(names: &SystemNames, words: &[&[u8]]) -> Result<Event, EventFault>
    ensures { result ≡ begin names.now (map (λ word. word.now) words.now) }
{
    let [name, unit, restarts] = words else {
        return Err(EventFault::Bad);
    };
    let unit = number(unit, u32::MAX)?;
    let restarts = number(restarts, u32::MAX)?;
    let terminal = names.terminal(name)?;
    Ok(Event::Begin {
        terminal,
        unit,
        restarts,
    })
}

/// SEND t n c.
#[tactic(auto, unfolding(crate::specs::Parsing::send))]
pub fn send(names: &SystemNames, words: &[&[u8]]) -> Result<Event, EventFault>
    ensures { result ≡ send names.now (map (λ word. word.now) words.now) }
{
    let [name, unit, class_name] = words else {
        return Err(EventFault::Bad);
    };
    named(class_name)?;
    let unit = number(unit, u32::MAX)?;
    let terminal = names.terminal(name)?;
    let class = names.class(class_name)?;
    Ok(Event::Send {
        terminal,
        unit,
        class,
    })
}

/// TAKE c i t.
#[tactic(auto, unfolding(crate::specs::Parsing::take_line_event))]
pub fn taken(names: &SystemNames, words: &[&[u8]]) -> Result<Event, EventFault>
    ensures { result ≡ take_line_event names.now (map (λ word. word.now) words.now) }
{
    let [class, process_number, name] = words else {
        return Err(EventFault::Bad);
    };
    named(name)?;
    let (class, process) = names.process(class, process_number)?;
    let terminal = names.terminal(name)?;
    Ok(Event::Take {
        class,
        process,
        terminal,
    })
}

/// FILE c i op m f s, whose mode is known.
#[tactic(auto, unfolding(crate::specs::Parsing::file_at))]
fn file_at(
    names: &SystemNames,
    class: &[u8],
    process_number: &[u8],
    op_word: &[u8],
    mode: LockMode,
    name: &[u8],
    status: &[u8],
) -> Result<Event, EventFault>
    ensures { result ≡ file_at names.now class.now process_number.now op_word.now mode name.now status.now }
{
    let op = op(op_word)?;
    named(name)?;
    let status = code(status)?;
    let (class, process) = names.process(class, process_number)?;
    let file = names.file(name)?;
    Ok(Event::File {
        class,
        process,
        op,
        mode,
        file,
        status,
    })
}

/// FILE c i op m f s, without m under AllExclusive.
#[tactic(auto, unfolding(crate::specs::Parsing::file_line))]
pub fn file_line(names: &SystemNames, words: &[&[u8]]) -> Result<Event, EventFault>
    ensures { result ≡ file_line names.now names.now.rule (map (λ word. word.now) words.now) }
{
    match (names.rule(), words) {
        (LockRule::ReadersShare, [class, process, op, mode_word, file, status]) => {
            let mode = mode(mode_word)?;
            file_at(names, class, process, op, mode, file, status)
        }
        (LockRule::AllExclusive, [class, process, op, file, status]) => {
            file_at(names, class, process, op, LockMode::Exclusive, file, status)
        }
        _ => Err(EventFault::Bad),
    }
}

/// The run fault of a reply, if any, by its first word and those behind it: OK, or FAULT x.
#[tactic(auto, unfolding(crate::specs::Parsing::fault_of))]
fn fault_of(keyword: Keyword, words: &[&[u8]]) -> Result<Option<u16>, EventFault>
    ensures { result ≡ fault_of keyword (map (λ word. word.now) words.now) }
{
    match (keyword, words) {
        (Keyword::Okay, []) => Ok(None),
        (Keyword::Fault, [fault]) => Ok(Some(code(fault)?)),
        _ => Err(EventFault::Bad),
    }
}

/// REPLY c i t OK, or REPLY c i t FAULT x.
#[tactic(auto, unfolding(crate::specs::Parsing::reply))]
pub fn reply(names: &SystemNames, words: &[&[u8]]) -> Result<Event, EventFault>
    ensures { result ≡ reply names.now (map (λ word. word.now) words.now) }
{
    let [class, process_number, name, word, words @ ..] = words else {
        return Err(EventFault::Bad);
    };
    let fault = fault_of(Keyword::of(word)?, words)?;
    named(name)?;
    let (class, process) = names.process(class, process_number)?;
    let terminal = names.terminal(name)?;
    Ok(Event::Reply {
        class,
        process,
        terminal,
        fault,
    })
}

/// TCP p PRIMARY k or TCP p BACKUP k, behind FAIL TCP.
#[tactic(auto, unfolding(crate::specs::Parsing::fail_tcp))]
fn fail_tcp(names: &SystemNames, words: &[&[u8]]) -> Result<Event, EventFault>
    ensures { result ≡ fail_tcp names.now (map (λ word. word.now) words.now) }
{
    let [name, primary, line] = words else {
        return Err(EventFault::Bad);
    };
    let primary = member(primary)?;
    let line = counted(line)?;
    let tcp = names.pair(name)?;
    Ok(Event::FailTcp { tcp, primary, line })
}

/// SERVER c i k, behind FAIL SERVER.
#[tactic(auto, unfolding(crate::specs::Parsing::fail_server))]
fn fail_server(names: &SystemNames, words: &[&[u8]]) -> Result<Event, EventFault>
    ensures { result ≡ fail_server names.now (map (λ word. word.now) words.now) }
{
    let [class, process_number, line] = words else {
        return Err(EventFault::Bad);
    };
    let line = counted(line)?;
    let (class, process) = names.process(class, process_number)?;
    Ok(Event::FailServer {
        class,
        process,
        line,
    })
}

/// FAIL TCP p PRIMARY k, FAIL TCP p BACKUP k or FAIL SERVER c i k, by the word behind FAIL and those behind it.
#[tactic(auto, unfolding(crate::specs::Parsing::failure_of))]
fn failure_of(names: &SystemNames, keyword: Keyword, words: &[&[u8]]) -> Result<Event, EventFault>
    ensures { result ≡ failure_of names.now keyword (map (λ word. word.now) words.now) }
{
    match keyword {
        Keyword::Tcp => fail_tcp(names, words),
        Keyword::Server => fail_server(names, words),
        _ => Err(EventFault::Bad),
    }
}

/// FAIL TCP p PRIMARY k, FAIL TCP p BACKUP k or FAIL SERVER c i k.
#[tactic(auto, unfolding(crate::specs::Parsing::fail))]
pub fn fail(names: &SystemNames, words: &[&[u8]]) -> Result<Event, EventFault>
    ensures { result ≡ fail names.now (map (λ word. word.now) words.now) }
{
    let [word, words @ ..] = words else {
        return Err(EventFault::Bad);
    };
    failure_of(names, Keyword::of(word)?, words)
}

/// TAKEOVER p.
#[tactic(auto, unfolding(crate::specs::Parsing::takeover))]
pub fn takeover(names: &SystemNames, words: &[&[u8]]) -> Result<Event, EventFault>
    ensures { result ≡ takeover names.now (map (λ word. word.now) words.now) }
{
    let [name] = words else {
        return Err(EventFault::Bad);
    };
    let tcp = names.pair(name)?;
    Ok(Event::Takeover { tcp })
}

/// RAISE p.
#[tactic(auto, unfolding(crate::specs::Parsing::raise))]
pub fn raise(names: &SystemNames, words: &[&[u8]]) -> Result<Event, EventFault>
    ensures { result ≡ raise names.now (map (λ word. word.now) words.now) }
{
    let [name] = words else {
        return Err(EventFault::Bad);
    };
    let tcp = names.pair(name)?;
    Ok(Event::Raise { tcp })
}
