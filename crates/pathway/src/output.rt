//! The status and the text of a command.

ghost use Rattle.std.specs.Prelude.{◌≡◌, ◌≤◌, false, true, IfErr, IfOk, OnOk};
ghost use Rattle.pathway.specs.Commands.{is_for_desk, reads_source};
ghost use Rattle.pathway.specs.Statuses.{OutputBy};
ghost use Rattle.pw_input_output.specs.Inputs.{GivesUp};
ghost use Rattle.pw_command_line.specs.CommandLine.{AreOptionsInRange};

use crate::decks::{DeckCommand, deck_output};
use crate::runs::{RunCommand, run_output};
use crate::schedule::schedule_output;
use crate::seeds::{generated, tried};
use pw_base::bytes::Bytes;
use pw_base::source::Source;
use pw_command_line::words::{Command, Words};
use pw_input_output::output::or_memory;
use pw_input_output::status::Status;
use pw_workers::gate::Gate;
use std::alloc::Global;
use std::sync::Wait;
use std::thread::Threads;

/// The status and the text of a command, or the status of a call that has none. It may wait for a thread.
pub fn output_by<S: Source, G: Gate, R: Threads + Wait + Sync>(
    rt: &R,
    alloc: Global,
    said: Words,
    source: &mut S,
    gate: &G,
) -> Result<(Status, Bytes), Status>
    requires range { AreOptionsInRange said }
    ensures ok { IfOk result (λ output. OutputBy said.command said (S.left source.old) output.0 output.1) }
    ensures err { IfErr result (λ status. GivesUp status (S.faults source.old) (S.faults source.new)) }
    ensures reads { IfErr result (λ status. status ≡ Status.ReadFault → reads_source said.command ≡ true) }
    ensures unread { reads_source said.command ≡ false → source.new ≡ source.old }
    ensures kept { OnOk result (S.faults source.new ≡ S.faults source.old) }
    ensures count { S.faults source.old ≤ S.faults source.new }
{
    let Words {
        command,
        workers,
        events,
        seed,
        terms,
        at,
    } = said;
    match command {
        Command::Run => {
            let asked = RunCommand::Run { events };
            run_output(rt, alloc, asked, workers, source, gate)
        }
        Command::Trial => or_memory(tried(rt, alloc, seed, terms, workers, gate)),
        Command::Disc => {
            let asked = RunCommand::Disc { events };
            run_output(rt, alloc, asked, workers, source, gate)
        }
        Command::Trail => {
            let asked = RunCommand::Trail { events, at };
            run_output(rt, alloc, asked, workers, source, gate)
        }
        Command::Check | Command::Verify | Command::Gen | Command::Status | Command::Expand =>
            desk_output(alloc, said, source),
    }
}

/// The status and the text of a command that waits for no thread, or the status of a call that has none.
pub fn desk_output<S: Source>(
    alloc: Global,
    said: Words,
    source: &mut S,
) -> Result<(Status, Bytes), Status>
    requires desk { is_for_desk said.command ≡ true }
    requires range { AreOptionsInRange said }
    ensures ok { IfOk result (λ output. OutputBy said.command said (S.left source.old) output.0 output.1) }
    ensures err { IfErr result (λ status. GivesUp status (S.faults source.old) (S.faults source.new)) }
    ensures reads { IfErr result (λ status. status ≡ Status.ReadFault → reads_source said.command ≡ true) }
    ensures unread { reads_source said.command ≡ false → source.new ≡ source.old }
    ensures kept { OnOk result (S.faults source.new ≡ S.faults source.old) }
    ensures count { S.faults source.old ≤ S.faults source.new }
{
    match said.command {
        Command::Check => deck_output(alloc, DeckCommand::Check, source),
        Command::Verify => deck_output(alloc, DeckCommand::Verify, source),
        Command::Status => deck_output(alloc, DeckCommand::Status { at: said.at }, source),
        Command::Gen => or_memory(generated(alloc, said.seed, said.terms)),
        Command::Expand => schedule_output(alloc, source),
        Command::Run | Command::Trial | Command::Disc | Command::Trail => unreachable!(),
    }
}
