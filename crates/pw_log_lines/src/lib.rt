//! The failure lines and the log of a deck.
//! docs/reference/DECK.md has the rules.
#![tactic(auto)]

mod count;
pub mod fail;
pub mod log;
mod nobody;
