//! The program: it runs a deck and writes the report of the run, says whether a deck has a fault,
//! replays or counts the log of a deck, generates a deck, or answers a schedule of transactions over several
//! systems.
#![tactic(auto)]

mod answers;
mod commands;
mod decks;
mod desk;
mod endings;
mod output;
mod process;
mod runs;
mod schedule;
mod seeds;
mod top;

use crate::process::process;
use pw_base::read_source::ReadSource;
use pw_base::write_sink::WriteSink;
use pw_workers::gate::NoGate;
use std::env;
use std::process::ExitCode;

fn main(rt: HostRuntime) -> ExitCode {
    let arguments = env::args(&rt);
    let mut source = ReadSource::new(rt.stdin());
    let mut sink = WriteSink::new(rt.stdout());
    process(&rt, rt.alloc(), arguments, &mut source, &mut sink, &NoGate)
}
