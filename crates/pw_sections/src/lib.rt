//! The sections of a deck and its lines: where each section begins and ends, what its section line says, the lines of those that
//! are no source, and the words, names and numbers that stand in a line.
//! docs/reference/DECK.md has the rules.
#![tactic(auto)]

pub mod entry;
pub mod heading;
mod key;
pub mod line;
mod pairs;
pub mod part;
pub mod record;
pub mod word;
