//! The text of the report, from its parts.
//! docs/reference/DECK.md has the rules.
#![tactic(auto)]

pub mod laws;
mod lines;
pub mod listing;
pub mod numbers;
mod parts;
