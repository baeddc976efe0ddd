ghost use Rattle.std.specs.Prelude.{◌≡◌, ◌+◌, ◌++◌, IfOk, OnOk};
ghost use Rattle.pw_expand.specs.Printed.{word_text, mark_text, sent_line, sent_lines, mark_line, mark_lines, marks_of, marks_to, world_text, fault_line};
ghost use Rattle.pw_expand.specs.Systems.{member_in, world_of};

use crate::systems::Systems;
use pw_base::bytes::Bytes;
use pw_base::memory::Memory;
use pw_net::message::{Mark, Net, NetId, NetWord};
use std::alloc::Global;

/// How a message's word is spelled.
fn word_text(word: NetWord) -> &'static str
    ensures { result.now ≡ word_text word }
{
    match word {
        NetWord::Prepare => "PREPARE",
        NetWord::Yes => "YES",
        NetWord::No => "NO",
        NetWord::Commit => "COMMIT",
        NetWord::Abort => "ABORT",
        NetWord::Ask => "ASK",
    }
}

/// How a mark is spelled.
fn mark_text(mark: Mark) -> &'static str
    ensures { result.now ≡ mark_text mark }
{
    match mark {
        Mark::Collecting => "COLLECTING",
        Mark::Prepared => "PREPARED",
        Mark::Committed => "COMMITTED",
        Mark::Aborted => "ABORTED",
    }
}

/// Puts the line of the k-th message behind a text.
fn put_sent(alloc: Global, text: &mut Bytes, k: usize, message: &Net) -> Result<(), Memory>
    ensures { OnOk result (text.new ≡ text.old ++ sent_line k message.now) }
{
    let word = word_text(message.word);
    let Net { from, to, id, .. } = *message;
    let NetId { home, number } = id;
    let line = format!(in alloc; "SENT {k} {word} {from} {to} {home} {number}\n")?;
    text.extend(line.as_bytes())
}

/// Puts the lines of all messages behind a text.
#[tactic(auto, unfolding(crate::specs::Printed::sent_lines))]
fn put_all_sent(alloc: Global, text: &mut Bytes, sent: &[Net]) -> Result<(), Memory>
    ensures { OnOk result (text.new ≡ text.old ++ sent_lines 1 sent.now) }
{
    for (place, message) in sent.iter().enumerate() {
        put_sent(alloc, text, place + 1, message)?;
    }
    Ok(())
}

/// Puts the line of a mark at a system behind a text.
fn put_mark(
    alloc: Global,
    text: &mut Bytes,
    system: u32,
    id: NetId,
    mark: Mark,
) -> Result<(), Memory>
    ensures { OnOk result (text.new ≡ text.old ++ mark_line system id mark) }
{
    let mark = mark_text(mark);
    let NetId { home, number } = id;
    let line = format!(in alloc; "MARK {system} {home} {number} {mark}\n")?;
    text.extend(line.as_bytes())
}

/// Puts the lines of marks at a system behind a text.
#[tactic(auto, unfolding(crate::specs::Printed::mark_lines))]
fn put_marks(
    alloc: Global,
    text: &mut Bytes,
    system: u32,
    marks: &[(NetId, Mark)],
) -> Result<(), Memory>
    ensures { OnOk result (text.new ≡ text.old ++ mark_lines system marks.now) }
{
    for (id, mark) in marks {
        put_mark(alloc, text, system, *id, *mark)?;
    }
    Ok(())
}

/// Puts the lines of a system's marks behind a text.
#[tactic(auto, unfolding(crate::specs::Printed::mark_lines))]
fn put_system(alloc: Global, text: &mut Bytes, world: &Systems, system: u32) -> Result<(), Memory>
    ensures { OnOk result (text.new ≡ text.old ++ mark_lines system (marks_of (member_in world.now.members.entries system))) }
{
    let Some(member) = world.members.get(&system) else {
        return Ok(());
    };
    let marks = member.marks()?;
    put_marks(alloc, text, system, marks.as_slice())
}

/// Puts the lines of the marks of systems 1 to n behind a text.
#[tactic(auto, unfolding(crate::specs::Printed::marks_to))]
fn put_all_marks(
    alloc: Global,
    text: &mut Bytes,
    world: &Systems,
    systems: u32,
) -> Result<(), Memory>
    ensures { OnOk result (text.new ≡ text.old ++ marks_to (member_in world.now.members.entries) systems) }
{
    for place in 0..systems {
        put_system(alloc, text, world, place + 1)?;
    }
    Ok(())
}

/// The lines of a net of so many systems: its messages in order, and then its marks
/// (docs/design/SYSTEMS.md).
pub fn world_text(alloc: Global, world: &Systems, systems: u32) -> Result<Bytes, Memory>
    ensures { IfOk result (λ text. text ≡ world_text systems (world_of world.now.members.entries world.now.sent.items)) }
{
    let mut text = Bytes::new(alloc);
    put_all_sent(alloc, &mut text, world.sent.as_slice())?;
    put_all_marks(alloc, &mut text, world, systems)?;
    Ok(text)
}

/// The line that is written for a schedule whose first fault stands at a line.
pub fn fault_line(alloc: Global, number: u32) -> Result<Bytes, Memory>
    ensures { IfOk result (λ text. text ≡ fault_line number) }
{
    let line = format!(in alloc; "SCHEDULE FAULT LINE {number}\n")?;
    Bytes::from_slice(alloc, line.as_bytes())
}
