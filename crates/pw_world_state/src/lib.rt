//! What a monitor keeps of a running system, and the state of the paired system for which that
//! stands.
//! docs/design/ARCHITECTURE.md has the rules.
#![tactic(auto)]

pub mod ends;
pub mod entering;
pub mod failures;
pub mod laws;
pub mod legality;
pub mod lengths;
pub mod next;
pub mod pairs;
pub mod restarts;
pub mod running;
pub mod runs;
pub mod servers;
pub mod setup;
pub mod sound;
pub mod starts;
pub mod steps;
pub mod takeovers;
pub mod terminals;
pub mod units;
