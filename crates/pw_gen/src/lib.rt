//! The generated deck: a deck of any number of terminals, whose entries are drawn from a seed, and that it has no fault.
//! docs/guide/COMMANDS.md has the rules.
#![tactic(auto)]

pub mod generate;
pub mod laws;
pub mod lines;
pub mod parts;
