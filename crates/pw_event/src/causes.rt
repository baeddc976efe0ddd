ghost use Rattle.std.specs.Prelude.{◌≡◌, map};
ghost use Rattle.pw_event.specs.Parsing.{cause_of, cause_in, restart, ending_of, end};

use crate::event::{Cause, Ending, Event};
use crate::fault::EventFault;
use crate::fields::{code, counted, named, number};
use crate::keyword::Keyword;
use crate::system_names::SystemNames;

/// A cause, by its first word and those behind it.
#[tactic(auto, unfolding(crate::specs::Parsing::cause_of))]
fn cause_of(names: &SystemNames, keyword: Keyword, words: &[&[u8]]) -> Result<Cause, EventFault>
    ensures { result ≡ cause_of names.now keyword (map (λ word. word.now) words.now) }
{
    match (keyword, words) {
        (Keyword::Older, [name, unit]) => {
            named(name)?;
            let unit = number(unit, u32::MAX)?;
            let terminal = names.terminal(name)?;
            Ok(Cause::Older { terminal, unit })
        }
        (Keyword::Takeover, [name]) => Ok(Cause::Takeover(names.pair(name)?)),
        (Keyword::Server, [line]) => Ok(Cause::Server(counted(line)?)),
        (Keyword::Redo, []) => Ok(Cause::Redo),
        _ => Err(EventFault::Bad),
    }
}

/// A cause, by its words.
#[tactic(auto, unfolding(crate::specs::Parsing::cause_in))]
fn cause_in(names: &SystemNames, words: &[&[u8]]) -> Result<Cause, EventFault>
    ensures { result ≡ cause_in names.now (map (λ word. word.now) words.now) }
{
    let [word, words @ ..] = words else {
        return Err(EventFault::Bad);
    };
    cause_of(names, Keyword::of(word)?, words)
}

/// RESTART t n cause, behind its first word.
#[tactic(auto, unfolding(crate::specs::Parsing::restart))]
pub fn restart(names: &SystemNames, words: &[&[u8]]) -> Result<Event, EventFault>
    ensures { result ≡ restart names.now (map (λ word. word.now) words.now) }
{
    let [name, unit, words @ ..] = words else {
        return Err(EventFault::Bad);
    };
    named(name)?;
    let unit = number(unit, u32::MAX)?;
    let cause = cause_in(names, words)?;
    let terminal = names.terminal(name)?;
    Ok(Event::Restart {
        terminal,
        unit,
        cause,
    })
}

/// An ending, by its first word and those behind it.
#[tactic(auto, unfolding(crate::specs::Parsing::ending_of))]
fn ending_of(names: &SystemNames, keyword: Keyword, words: &[&[u8]]) -> Result<Ending, EventFault>
    ensures { result ≡ ending_of names.now keyword (map (λ word. word.now) words.now) }
{
    match (keyword, words) {
        (Keyword::Stopped, []) => Ok(Ending::Stopped),
        (Keyword::NoEntries, []) => Ok(Ending::NoEntries),
        (Keyword::Fault, [fault]) => Ok(Ending::Fault(code(fault)?)),
        (Keyword::Suspended, words) => Ok(Ending::Suspended(cause_in(names, words)?)),
        (Keyword::Lost, []) => Ok(Ending::Lost),
        _ => Err(EventFault::Bad),
    }
}

/// END t ending, behind its first word.
#[tactic(auto, unfolding(crate::specs::Parsing::end))]
pub fn end(names: &SystemNames, words: &[&[u8]]) -> Result<Event, EventFault>
    ensures { result ≡ end names.now (map (λ word. word.now) words.now) }
{
    let [name, word, words @ ..] = words else {
        return Err(EventFault::Bad);
    };
    named(name)?;
    let ending = ending_of(names, Keyword::of(word)?, words)?;
    let terminal = names.terminal(name)?;
    Ok(Event::End { terminal, ending })
}
