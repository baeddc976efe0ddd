//! Whole decks: what a deck says, with its programs compiled.
//! docs/reference/DECK.md and docs/design/MACHINE.md have the rules.
#![tactic(auto)]

mod codes;
pub mod deck;
pub mod laws;
