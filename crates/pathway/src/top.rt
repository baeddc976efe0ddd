//! The program.

ghost use Rattle.std.specs.Prelude.{◌≡◌, ◌≤◌, map, string_bytes};
ghost use Rattle.pathway.specs.Commands.{is_for_program};
ghost use Rattle.pathway.specs.Statuses.{AsksSource, Ends, EndsWith};

use crate::answers::usage_line;
use crate::commands::said;
use crate::output::output_by;
use pw_base::memory::Memory;
use pw_base::sink::Sink;
use pw_base::source::Source;
use pw_input_output::output::written;
use pw_input_output::status::Status;
use pw_workers::gate::Gate;
use std::alloc::Global;
use std::sync::Wait;
use std::thread::Threads;

/// The program: by the words after its name it reads a deck from the source, runs it with workers, over a disc
/// that does not fail, over a disc pair or over a trail, and writes the report of the run, or the records that
/// it left, to the sink; or it runs the generated deck; or it does what `desk` does (docs/guide/COMMANDS.md). It
/// answers the exit status. It may wait for a thread.
///
/// The clause `ends` is the headline: where the deck has no fault the report is that of a run of it,
/// whatever fails; the screens, each numbered refresh counted once, and the records are those of a
/// machine that runs the log's serial order one unit at a time; and each unit number ends at most once.
/// It has the cause of every status: the source's count of faults rises at status 4 alone, and the sink's at
/// status 5 alone. The clause `unread`: where the words ask for no command that reads the source, it is as it was. All
/// output is made before its first byte is written.
pub fn pathway<S: Source, K: Sink, G: Gate, R: Threads + Wait + Sync>(
    rt: &R,
    alloc: Global,
    words: &[String],
    source: &mut S,
    sink: &mut K,
    gate: &G,
) -> u8
    ensures ends { Ends (record {
      does = is_for_program;
      words = map string_bytes words.now;
      left = S.left source.old;
      read_faults = S.faults source.old;
      read_faults_then = S.faults source.new;
      written = K.written sink.old;
      written_then = K.written sink.new;
      write_faults = K.faults sink.old;
      write_faults_then = K.faults sink.new;
    }) result }
    ensures unread { ¬ AsksSource is_for_program (map string_bytes words.now) → source.new ≡ source.old }
    ensures read_count { S.faults source.old ≤ S.faults source.new }
    ensures write_count { K.faults sink.old ≤ K.faults sink.new }
{
    call(rt, alloc, words, source, sink, gate).number()
}

/// One call, by its status.
fn call<S: Source, K: Sink, G: Gate, R: Threads + Wait + Sync>(
    rt: &R,
    alloc: Global,
    words: &[String],
    source: &mut S,
    sink: &mut K,
    gate: &G,
) -> Status
    ensures ends { EndsWith result (record {
      does = is_for_program;
      words = map string_bytes words.now;
      left = S.left source.old;
      read_faults = S.faults source.old;
      read_faults_then = S.faults source.new;
      written = K.written sink.old;
      written_then = K.written sink.new;
      write_faults = K.faults sink.old;
      write_faults_then = K.faults sink.new;
    }) }
    ensures unread { ¬ AsksSource is_for_program (map string_bytes words.now) → source.new ≡ source.old }
    ensures read_count { S.faults source.old ≤ S.faults source.new }
    ensures write_count { K.faults sink.old ≤ K.faults sink.new }
{
    let said = match said(alloc, words) {
        Ok(Some(said)) => said,
        Ok(None) => return written(sink, Status::Usage, usage_line()),
        Err(Memory) => return Status::Memory,
    };
    match output_by(rt, alloc, said, source, gate) {
        Ok((status, text)) => written(sink, status, text.as_slice()),
        Err(status) => status,
    }
}
