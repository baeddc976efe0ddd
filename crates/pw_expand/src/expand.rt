ghost use Rattle.std.specs.Prelude.{◌≡◌, ◌≤◌, IfErr, IfOk, Ok, OnOk};
ghost use Rattle.pw_expand.specs.Answers.{GivesUpSchedule, IsAnswered};
ghost use Rattle.pw_expand.specs.Printed.{schedule_answered, expanded};
ghost use Rattle.pw_expand.specs.Systems.{IsFaultOf};

use crate::fault::ScheduleFault;
use crate::play::play_schedule;
use crate::print::{fault_line, world_text};
use pw_base::bytes::Bytes;
use pw_base::memory::Memory;
use pw_base::read_all::{ReadFault, read_all};
use pw_base::source::Source;
use std::alloc::Global;

/// How a schedule is answered.
#[derive(Clone, Copy, Debug, PartialEq, Eq)]
pub enum ScheduleEnding {
    /// It has no fault: its messages and marks are written.
    Expanded,
    /// It has a fault, whose line is written.
    Refused,
}

/// The output for a schedule: a line for each message that its events send, and then one for each
/// mark that they leave (docs/design/SYSTEMS.md). It refuses exactly with the line of the schedule's first
/// fault, which is 0 for an input over the limit.
pub fn expand(alloc: Global, bytes: &[u8]) -> Result<Bytes, ScheduleFault>
    ensures ok { IfOk result (λ text. expanded bytes.now ≡ Ok text) }
    ensures err { IfErr result (λ fault. IsFaultOf fault (expanded bytes.now)) }
{
    let (systems, world) = play_schedule(alloc, bytes)?;
    let text = world_text(alloc, &world, systems)?;
    Ok(text)
}

/// How a schedule is answered, and what is written then (docs/design/SYSTEMS.md).
pub fn answer(alloc: Global, bytes: &[u8]) -> Result<(ScheduleEnding, Bytes), Memory>
    ensures { IfOk result (λ answer. (answer.0, answer.1) ≡ schedule_answered (expanded bytes.now)) }
{
    match expand(alloc, bytes) {
        Ok(text) => Ok((ScheduleEnding::Expanded, text)),
        Err(ScheduleFault::At { line }) => Ok((ScheduleEnding::Refused, fault_line(alloc, line)?)),
        Err(ScheduleFault::Memory) => Err(Memory),
    }
}

/// How the schedule that a source has left is answered, and what is written then. An input over the
/// limit is refused as any schedule with a fault. Nothing is answered only where the source failed,
/// which its count tells, or memory ran out.
pub fn answer_source<S: Source>(
    alloc: Global,
    source: &mut S,
) -> Result<(ScheduleEnding, Bytes), ReadFault>
    ensures ok { IfOk result (λ answer. IsAnswered (S.left source.old) answer.0 answer.1) }
    ensures err { IfErr result (λ fault. GivesUpSchedule fault (S.faults source.old) (S.faults source.new)) }
    ensures kept { OnOk result (S.faults source.new ≡ S.faults source.old) }
    ensures count { S.faults source.old ≤ S.faults source.new }
{
    match read_all(alloc, source) {
        Ok(bytes) => Ok(answer(alloc, bytes.as_slice())?),
        Err(ReadFault::TooLong) => Ok((ScheduleEnding::Refused, fault_line(alloc, 0)?)),
        Err(ReadFault::Fault) => Err(ReadFault::Fault),
        Err(ReadFault::Memory) => Err(ReadFault::Memory),
    }
}
