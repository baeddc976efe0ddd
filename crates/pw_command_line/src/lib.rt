//! The words of the command line, read by one simple command of `clap`.
//! docs/guide/COMMANDS.md has the rules.
#![tactic(auto)]

pub mod read;
pub mod words;
