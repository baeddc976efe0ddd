ghost use Rattle.std.specs.Prelude.{◌≡◌, ◌≤◌, IfOk, IfErr, OnOk};
ghost use Rattle.pathway.specs.Schedules.{OfSchedule, status_by};
ghost use Rattle.pw_input_output.specs.Inputs.{GivesUp};

use pw_base::bytes::Bytes;
use pw_base::read_all::ReadFault;
use pw_base::source::Source;
use pw_expand::expand::{ScheduleEnding, answer_source};
use pw_input_output::status::Status;
use std::alloc::Global;

/// Reads the schedule of the source: the status and the text that answer it (docs/design/SYSTEMS.md), or the
/// status of a call that has none.
pub fn schedule_output<S: Source>(alloc: Global, source: &mut S) -> Result<(Status, Bytes), Status>
    ensures ok { IfOk result (λ output. OfSchedule (S.left source.old) output.0 output.1) }
    ensures err { IfErr result (λ status. GivesUp status (S.faults source.old) (S.faults source.new)) }
    ensures kept { OnOk result (S.faults source.new ≡ S.faults source.old) }
    ensures count { S.faults source.old ≤ S.faults source.new }
{
    match answer_source(alloc, source) {
        Ok((ending, text)) => Ok((status_by(ending), text)),
        Err(ReadFault::Fault) => Err(Status::ReadFault),
        Err(ReadFault::Memory) => Err(Status::Memory),
        Err(ReadFault::TooLong) => unreachable!(),
    }
}

/// The status of a schedule that is answered so.
fn status_by(ending: ScheduleEnding) -> Status
    ensures { result ≡ status_by ending }
{
    match ending {
        ScheduleEnding::Expanded => Status::Finished,
        ScheduleEnding::Refused => Status::Refused,
    }
}
