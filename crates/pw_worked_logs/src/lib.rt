//! Decks and logs that were worked out by hand, checked by computation.
//! docs/design/PROTOCOL.md has the rules.
#![tactic(auto)]

pub mod decks;
pub mod logs;
pub mod refused;
pub mod states;
