//! What a monitor keeps of a running system: of each terminal and of a server at work, contexts, tables, pairs and a disc, with a
//! call for what each kind of entry does to it.
//! docs/design/ARCHITECTURE.md has the rules.
#![tactic(auto)]

mod each;
mod failures;
pub mod job;
pub mod keep;
mod pairs;
mod pieces;
mod reading;
pub mod seat;
mod servers;
mod starting;
mod terminals;
mod units;
