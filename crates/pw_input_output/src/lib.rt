//! What a call of the program stands on: how it ends and by which exit status, the input that it reads from a
//! source, and its text that is written to a sink.
//! docs/guide/COMMANDS.md has the rules.
#![tactic(auto)]

pub mod input;
pub mod output;
pub mod status;
