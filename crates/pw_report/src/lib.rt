//! The serial order and the report of a world's log.
//! docs/reference/DECK.md has the rules.
#![tactic(auto)]

pub mod no_step;
pub mod order;
pub mod report;
pub mod taken;
