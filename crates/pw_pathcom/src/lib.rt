//! The commands of a deck: what they set, add and start.
//! docs/reference/DECK.md has the rules.
#![tactic(auto)]

pub mod commands;
pub mod objects;
pub mod pathcom;
mod reading;
mod verb;
