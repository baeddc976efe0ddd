//! The program as far as it waits for no thread.

ghost use Rattle.std.specs.Prelude.{◌≡◌, ◌≤◌, map, string_bytes};
ghost use Rattle.pathway.specs.Commands.{is_for_desk};
ghost use Rattle.pathway.specs.Statuses.{AsksSource, Ends, EndsWith};

use crate::answers::usage_line;
use crate::commands::said_to_desk;
use crate::output::desk_output;
use pw_base::memory::Memory;
use pw_base::sink::Sink;
use pw_base::source::Source;
use pw_input_output::output::written;
use pw_input_output::status::Status;
use std::alloc::Global;

/// The program as far as it waits for no thread: it says whether a deck of the source has a fault, replays its
/// log, or counts its first entries; or it writes the generated deck; or it reads a schedule, and writes its
/// messages and marks (docs/guide/COMMANDS.md). It answers the exit status.
///
/// The clauses are those of `pathway`, where the words of the other commands say nothing.
pub fn desk<S: Source, K: Sink>(alloc: Global, words: &[String], source: &mut S, sink: &mut K) -> u8
    ensures ends { Ends (record {
      does = is_for_desk;
      words = map string_bytes words.now;
      left = S.left source.old;
      read_faults = S.faults source.old;
      read_faults_then = S.faults source.new;
      written = K.written sink.old;
      written_then = K.written sink.new;
      write_faults = K.faults sink.old;
      write_faults_then = K.faults sink.new;
    }) result }
    ensures unread { ¬ AsksSource is_for_desk (map string_bytes words.now) → source.new ≡ source.old }
    ensures read_count { S.faults source.old ≤ S.faults source.new }
    ensures write_count { K.faults sink.old ≤ K.faults sink.new }
{
    desk_call(alloc, words, source, sink).number()
}

/// One call, by its status.
fn desk_call<S: Source, K: Sink>(
    alloc: Global,
    words: &[String],
    source: &mut S,
    sink: &mut K,
) -> Status
    ensures ends { EndsWith result (record {
      does = is_for_desk;
      words = map string_bytes words.now;
      left = S.left source.old;
      read_faults = S.faults source.old;
      read_faults_then = S.faults source.new;
      written = K.written sink.old;
      written_then = K.written sink.new;
      write_faults = K.faults sink.old;
      write_faults_then = K.faults sink.new;
    }) }
    ensures unread { ¬ AsksSource is_for_desk (map string_bytes words.now) → source.new ≡ source.old }
    ensures read_count { S.faults source.old ≤ S.faults source.new }
    ensures write_count { K.faults sink.old ≤ K.faults sink.new }
{
    let said = match said_to_desk(alloc, words) {
        Ok(Some(said)) => said,
        Ok(None) => return written(sink, Status::Usage, usage_line()),
        Err(Memory) => return Status::Memory,
    };
    match desk_output(alloc, said, source) {
        Ok((status, text)) => written(sink, status, text.as_slice()),
        Err(status) => status,
    }
}
