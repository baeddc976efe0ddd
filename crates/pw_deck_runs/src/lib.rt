//! What the bytes of a deck come to: a run of it with its report, also over a disc pair or a trail that is crashed
//! and recovered, or the replay of its log. And a run of a generated deck, with its files.
//! docs/design/ARCHITECTURE.md has the rules.
#![tactic(auto)]

pub mod disc;
mod over_tmf;
pub mod recovery;
mod reported;
pub mod run;
pub mod setups;
pub mod trial;
pub mod verify;
pub mod written;
