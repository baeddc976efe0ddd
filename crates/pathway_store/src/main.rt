//! A monitor whose records last: it runs a deck over the store in a folder, and writes the report of the run.
//! docs/guide/STORE.md has the rules.
#![tactic(auto)]

mod answers;
mod folder;
mod opened;
mod words;

use crate::answers::StoreAnswer;
use crate::folder::run_in_folder;
use crate::words::store_words;
use pw_base::read_source::ReadSource;
use pw_base::write_all::write_all_of;
use pw_base::write_sink::WriteSink;
use pw_input_output::output::written;
use pw_input_output::status::Status;
use std::env;
use std::process::ExitCode;

fn main(rt: HostRuntime) -> ExitCode {
    let arguments = env::args(&rt);
    let mut source = ReadSource::new(rt.stdin());
    let mut sink = WriteSink::new(rt.stdout());
    let words = match store_words(rt.alloc(), arguments) {
        Ok(words) => words,
        Err(Status::Usage) => {
            let status = written(&mut sink, Status::Usage, answers::USAGE);
            return ExitCode::from(status.number());
        }
        Err(status) => return ExitCode::from(status.number()),
    };
    let StoreAnswer {
        number,
        text,
        cause,
    } = run_in_folder(&rt, &rt, &words, &mut source);
    let _told = write_all_of(&mut WriteSink::new(rt.stderr()), cause.as_slice());
    match written(&mut sink, Status::Finished, text.as_slice()) {
        Status::Finished => ExitCode::from(number),
        status => ExitCode::from(status.number()),
    }
}
