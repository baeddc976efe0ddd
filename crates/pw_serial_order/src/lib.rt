//! The serial order of a log, entry by entry.
//! docs/reference/DECK.md has the rules.
#![tactic(auto)]

pub mod block;
pub mod entry;
pub mod laws;
pub mod mark;
pub mod order;
pub mod pair;
pub mod seat;
mod seats;
