//! What a deck says besides its programs: the sections that are no source, and the tables of its
//! system.
//! docs/reference/DECK.md has the rules.
#![tactic(auto)]

pub mod objects;
pub mod piece;
pub mod tables;
pub mod told;
mod unknown;
