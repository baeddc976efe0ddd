ghost use Rattle.std.specs.Prelude.{◌≡◌, ◌&&◌, IfOk, map, codes, Some};
ghost use Rattle.std.specs.Str.{bytes_eq};
ghost use Rattle.std.specs.List.{list_all};
ghost use Rattle.std.specs.Option.{option_map};
ghost use Rattle.pw_net.specs.World as net;
ghost use Rattle.pw_expand.specs.Events.{net_event, words_of, keyword_in, is_system, all_differ, may_start, start_of, about, event_of, keyword_event, event_by, event_in};
ghost use Rattle.pw_expand.specs.Numbers.{counts_in};
ghost use Rattle.pw_expand.specs.declared.event.ScheduleKeyword.TheVariants.{Deliver, GiveUp, Restart};
ghost use Rattle.pw_expand.specs.Schedule.{net_size, systems_by, systems_in};

use crate::event::{ScheduleCall, ScheduleEvent, ScheduleKeyword};
use crate::number::counts_in;
use pw_base::list::List;
use pw_base::memory::Memory;
use pw_net::message::NetId;
use std::alloc::{AllocError, Global};

/// The words of a line: what stands between its spaces.
fn words_of(alloc: Global, line: &[u8]) -> Result<Vec<&[u8]>, AllocError>
    ensures { IfOk result (λ words. map (λ word. word.now) words.items ≡ words_of line.now) }
{
    line.split(|byte| *byte == b' ').collect(alloc)
}

/// The keyword that a word is, None exactly where it is none.
#[tactic(auto, unfolding(crate::specs::Events::keyword_in))]
fn keyword_in(word: &[u8]) -> Option<ScheduleKeyword>
    ensures { result ≡ keyword_in word.now }
{
    if word == b"START".as_slice() {
        Some(ScheduleKeyword::Start)
    } else if word == b"DELIVER".as_slice() {
        Some(ScheduleKeyword::Deliver)
    } else if word == b"REFUSE".as_slice() {
        Some(ScheduleKeyword::Refuse)
    } else if word == b"ASK".as_slice() {
        Some(ScheduleKeyword::Ask)
    } else if word == b"GIVEUP".as_slice() {
        Some(ScheduleKeyword::GiveUp)
    } else if word == b"RESTART".as_slice() {
        Some(ScheduleKeyword::Restart)
    } else {
        None
    }
}

/// Whether each of these systems is there.
fn are_systems(systems: u32, numbers: &[u32]) -> bool
    ensures { result ≡ list_all (is_system systems) numbers.now }
{
    numbers.iter().all(|number| *number <= systems)
}

/// Whether no number stands twice. It looks at each pair, so there are to be few.
fn all_differ(numbers: &[u32]) -> bool
    ensures { result ≡ all_differ numbers.now }
{
    match numbers {
        [first, rest @ ..] => !rest.contains(first) && all_differ(rest),
        [] => true,
    }
}

/// Whether the first of these systems may start a transaction with the others.
fn may_start(systems: u32, numbers: &[u32]) -> bool
    ensures { result ≡ may_start systems numbers.now }
{
    numbers.len() >= 2
        && (numbers.len() <= 8 && (are_systems(systems, numbers) && all_differ(numbers)))
}

/// The start by the first of these systems, None exactly where it may not start.
fn start_of(alloc: Global, systems: u32, numbers: &[u32]) -> Result<Option<ScheduleEvent>, Memory>
    ensures { IfOk result (λ event. option_map net_event event ≡ start_of systems numbers.now) }
{
    if may_start(systems, numbers) {
        if let [system, others @ ..] = numbers {
            return Ok(Some(ScheduleEvent::Call {
                system: *system,
                call: ScheduleCall::Start {
                    others: List::from_vec(others.to_vec(alloc)?),
                },
            }));
        }
    }
    Ok(None)
}

/// Whether two systems are there.
fn are_both(systems: u32, one: u32, other: u32) -> bool
    ensures { result ≡ (is_system systems one && is_system systems other) }
{
    one <= systems && other <= systems
}

/// The refusal of a system about a transaction whose home is there.
fn refuse_of(systems: u32, numbers: &[u32]) -> Option<ScheduleEvent>
    ensures { option_map net_event result ≡ about systems net.Refuse numbers.now }
{
    match numbers {
        [system, home, number] if are_both(systems, *system, *home) => Some(ScheduleEvent::Call {
            system: *system,
            call: ScheduleCall::Refuse {
                id: NetId {
                    home: *home,
                    number: *number,
                },
            },
        }),
        _ => None,
    }
}

/// The question of a system about a transaction whose home is there.
fn ask_of(systems: u32, numbers: &[u32]) -> Option<ScheduleEvent>
    ensures { option_map net_event result ≡ about systems net.Ask numbers.now }
{
    match numbers {
        [system, home, number] if are_both(systems, *system, *home) => Some(ScheduleEvent::Call {
            system: *system,
            call: ScheduleCall::Ask {
                id: NetId {
                    home: *home,
                    number: *number,
                },
            },
        }),
        _ => None,
    }
}

/// The delivery of one message.
fn deliver_of(systems: u32, numbers: &[u32]) -> Option<ScheduleEvent>
    ensures { option_map net_event result ≡ event_of systems Deliver numbers.now }
{
    match numbers {
        [k] => Some(ScheduleEvent::Deliver { k: *k }),
        _ => None,
    }
}

/// The end of a home's waiting for votes.
fn give_up_of(systems: u32, numbers: &[u32]) -> Option<ScheduleEvent>
    ensures { option_map net_event result ≡ event_of systems GiveUp numbers.now }
{
    match numbers {
        [system, number] if *system <= systems => Some(ScheduleEvent::Call {
            system: *system,
            call: ScheduleCall::GiveUp { number: *number },
        }),
        _ => None,
    }
}

/// The restart of a system that is there.
fn restart_of(systems: u32, numbers: &[u32]) -> Option<ScheduleEvent>
    ensures { option_map net_event result ≡ event_of systems Restart numbers.now }
{
    match numbers {
        [system] if *system <= systems => Some(ScheduleEvent::Call {
            system: *system,
            call: ScheduleCall::Restart,
        }),
        _ => None,
    }
}

/// The event of a keyword with these numbers, None exactly where there is none.
fn event_of(
    alloc: Global,
    systems: u32,
    keyword: ScheduleKeyword,
    numbers: &[u32],
) -> Result<Option<ScheduleEvent>, Memory>
    ensures { IfOk result (λ event. option_map net_event event ≡ event_of systems keyword numbers.now) }
{
    match keyword {
        ScheduleKeyword::Start => start_of(alloc, systems, numbers),
        ScheduleKeyword::Deliver => Ok(deliver_of(systems, numbers)),
        ScheduleKeyword::Refuse => Ok(refuse_of(systems, numbers)),
        ScheduleKeyword::Ask => Ok(ask_of(systems, numbers)),
        ScheduleKeyword::GiveUp => Ok(give_up_of(systems, numbers)),
        ScheduleKeyword::Restart => Ok(restart_of(systems, numbers)),
    }
}

/// The event of a keyword with the numbers that words are.
fn called(
    alloc: Global,
    systems: u32,
    keyword: Option<ScheduleKeyword>,
    fields: &[&[u8]],
) -> Result<Option<ScheduleEvent>, Memory>
    ensures { IfOk result (λ event. option_map net_event event
        ≡ keyword_event systems keyword (counts_in (map (λ word. word.now) fields.now))) }
{
    let Some(keyword) = keyword else {
        return Ok(None);
    };
    match counts_in(alloc, fields)? {
        Some(numbers) => event_of(alloc, systems, keyword, numbers.as_slice()),
        None => Ok(None),
    }
}

/// The event of a line's words.
fn event_by(alloc: Global, systems: u32, words: &[&[u8]]) -> Result<Option<ScheduleEvent>, Memory>
    ensures { IfOk result (λ event. option_map net_event event
        ≡ event_by systems (map (λ word. word.now) words.now)) }
{
    match words {
        [word, fields @ ..] => called(alloc, systems, keyword_in(word), fields),
        [] => Ok(None),
    }
}

/// The event that a line names among this many systems, None exactly where it names none
/// (docs/design/SYSTEMS.md).
#[tactic(auto, unfolding(crate::specs::Events::event_in))]
pub fn event_in(alloc: Global, systems: u32, line: &[u8]) -> Result<Option<ScheduleEvent>, Memory>
    ensures { IfOk result (λ event. option_map net_event event ≡ event_in systems line.now) }
{
    let words = words_of(alloc, line)?;
    event_by(alloc, systems, words.as_slice())
}

/// The one number, where it is from 2 to 8.
fn net_size(numbers: &[u32]) -> Option<u32>
    ensures { result ≡ net_size (Some numbers.now) }
{
    match numbers {
        [systems] if *systems >= 2 && *systems <= 8 => Some(*systems),
        _ => None,
    }
}

/// The number of systems that the words behind the first one name.
fn size_in(alloc: Global, fields: &[&[u8]]) -> Result<Option<u32>, Memory>
    ensures { IfOk result (λ systems. systems ≡ net_size (counts_in (map (λ word. word.now) fields.now))) }
{
    match counts_in(alloc, fields)? {
        Some(numbers) => Ok(net_size(numbers.as_slice())),
        None => Ok(None),
    }
}

/// Whether a word is SYSTEMS.
fn is_systems(word: &[u8]) -> bool
    ensures { result ≡ bytes_eq word.now (codes "SYSTEMS") }
{
    word == b"SYSTEMS".as_slice()
}

/// The number of systems of the first line's words.
fn systems_by(alloc: Global, words: &[&[u8]]) -> Result<Option<u32>, Memory>
    ensures { IfOk result (λ systems. systems ≡ systems_by (map (λ word. word.now) words.now)) }
{
    match words {
        [word, fields @ ..] if is_systems(word) => size_in(alloc, fields),
        _ => Ok(None),
    }
}

/// The number of systems that the first line names, from 2 to 8; None exactly where it names none.
#[tactic(auto, unfolding(crate::specs::Schedule::systems_in))]
pub fn systems_in(alloc: Global, line: &[u8]) -> Result<Option<u32>, Memory>
    ensures { IfOk result (λ systems. systems ≡ systems_in line.now) }
{
    let words = words_of(alloc, line)?;
    systems_by(alloc, words.as_slice())
}
