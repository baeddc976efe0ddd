//! The screen section of a requester: its screens and their fields.
//! docs/reference/LANGUAGE.md has the rules.
#![tactic(auto)]

mod body;
mod build;
mod building;
mod cells;
mod clauses;
mod entries;
mod entry;
mod field;
pub mod laws;
pub mod read;
mod reading;
mod shown;
mod taken;
