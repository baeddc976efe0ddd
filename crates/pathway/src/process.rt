//! The program as a process: from the arguments that the host gives to the exit status that the host is given.

ghost use Rattle.std.specs.Prelude.{◌≡◌, ◌≤◌, drop, IfOk, IsErr, map, string_bytes};
ghost use Rattle.std.specs.Process.{exit_status};
ghost use Rattle.std.specs.Vec.Iter.{into_iter_items};
ghost use Rattle.pathway.specs.Arguments.{IsOutOfMemory, words_told};
ghost use Rattle.pathway.specs.Commands.{is_for_program};
ghost use Rattle.pathway.specs.Statuses.{AsksSource, Ends};
ghost use Rattle.pw_input_output.specs.Numbers.{status_number};

use crate::top::pathway;
use pw_base::memory::Memory;
use pw_base::sink::Sink;
use pw_base::source::Source;
use pw_input_output::status::Status;
use pw_workers::gate::Gate;
use std::alloc::Global;
use std::env::Args;
use std::io;
use std::io::ErrorKind;
use std::process::ExitCode;
use std::sync::Wait;
use std::thread::Threads;

/// The program between the host's ends: it takes the arguments of its process as the host gives them, and answers
/// the exit status, which is that of `pathway` for the words that they tell.
///
/// Where the arguments are not all text they tell no words, which are none of the command's. Where memory ran out
/// before they were there the exit status says so.
pub fn process<S: Source, K: Sink, G: Gate, R: Threads + Wait + Sync>(
    rt: &R,
    alloc: Global,
    arguments: io::Result<Args>,
    source: &mut S,
    sink: &mut K,
    gate: &G,
) -> ExitCode
    ensures ends { Ends (record {
      does = is_for_program;
      words = words_told arguments;
      left = S.left source.old;
      read_faults = S.faults source.old;
      read_faults_then = S.faults source.new;
      written = K.written sink.old;
      written_then = K.written sink.new;
      write_faults = K.faults sink.old;
      write_faults_then = K.faults sink.new;
    }) (exit_status result) }
    ensures memory { IsOutOfMemory arguments → exit_status result ≡ status_number Status.Memory }
    ensures unread { ¬ AsksSource is_for_program (words_told arguments) → source.new ≡ source.old }
    ensures read_count { S.faults source.old ≤ S.faults source.new }
    ensures write_count { K.faults sink.old ≤ K.faults sink.new }
{
    let Ok(words) = command_words(alloc, arguments) else {
        return ExitCode::from(Status::Memory.number());
    };
    ExitCode::from(pathway(rt, alloc, words.as_slice(), source, sink, gate))
}

/// The words of the command line. Where they are not all text they are none of the command's.
fn command_words(alloc: Global, arguments: io::Result<Args>) -> Result<Vec<String>, Memory>
    ensures told { IfOk result (λ words. map string_bytes words.items ≡ words_told arguments) }
    ensures memory { IsOutOfMemory arguments → IsErr result }
{
    match arguments {
        Ok(arguments) => words_of(alloc, arguments),
        Err(error) if error.kind() == ErrorKind::OutOfMemory => Err(Memory),
        Err(_) => Ok(Vec::new(alloc)),
    }
}

/// The words behind the first argument, which is the program's name.
fn words_of(alloc: Global, mut arguments: Args) -> Result<Vec<String>, Memory>
    ensures { IfOk result (λ words. words.items ≡ drop 1 (into_iter_items arguments)) }
{
    let mut words = Vec::new(alloc);
    let _name = arguments.next();
    while let Some(word) = arguments.next() {
        words.push(word)?;
    }
    Ok(words)
}
