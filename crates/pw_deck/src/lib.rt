//! The reader of decks.
//! docs/reference/DECK.md has the rules.
#![tactic(auto)]

pub mod deck;
pub mod named;
pub mod parts;
mod sections;
