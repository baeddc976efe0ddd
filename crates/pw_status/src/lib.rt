//! STATUS and STATS: what is counted in a log, entry by entry, a watch over a log that is going on, and the status text.
//! docs/guide/COMMANDS.md has the rules.
#![tactic(auto)]

pub mod attempts;
pub mod counters;
pub mod counts;
mod entering;
pub mod laws;
pub mod lines;
pub mod longest;
mod meeting;
mod noting;
pub mod over;
pub mod shown;
pub mod status;
pub mod tally;
mod text;
pub mod watch;
