ghost use Rattle.std.specs.Prelude.{◌≡◌, ◌≤◌, Ok, IfErr, IfOk};
ghost use Rattle.pw_input_output.specs.Outputs.{EndsWriting};

use crate::status::Status;
use pw_base::bytes::Bytes;
use pw_base::memory::Memory;
use pw_base::sink::Sink;
use pw_base::write_all::write_all_of;

/// Writes the text of a call, and answers its status: the given one where the sink has taken the whole text, and
/// `WriteFault` only where the sink failed behind a beginning of it. It takes no memory.
pub fn written<K: Sink>(sink: &mut K, status: Status, text: &[u8]) -> Status
    ensures ends { EndsWriting status result text.now
        (K.written sink.old) (K.written sink.new) (K.faults sink.old) (K.faults sink.new) }
    ensures count { K.faults sink.old ≤ K.faults sink.new }
{
    match write_all_of(sink, text) {
        Ok(()) => status,
        Err(_) => Status::WriteFault,
    }
}

/// Want of memory as the status of a call that has no text.
pub fn or_memory(output: Result<(Status, Bytes), Memory>) -> Result<(Status, Bytes), Status>
    ensures ok { IfOk result (λ text. output ≡ Ok text) }
    ensures err { IfErr result (λ status. status ≡ Status.Memory) }
{
    match output {
        Ok(text) => Ok(text),
        Err(Memory) => Err(Status::Memory),
    }
}
