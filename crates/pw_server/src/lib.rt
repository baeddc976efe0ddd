//! The source of a server: its divisions, its data and its procedure.
//! docs/reference/LANGUAGE.md has the rules.
#![tactic(auto)]

pub mod read;
pub mod server;
