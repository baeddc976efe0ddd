//! The source of a requester: its divisions, its data, its screens and its procedure.
//! docs/reference/LANGUAGE.md has the rules.
#![tactic(auto)]

pub mod read;
pub mod requester;
