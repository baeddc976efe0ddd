//! The entries of a run, each done to what a monitor keeps.
//! docs/design/ARCHITECTURE.md has the rules.
#![tactic(auto)]

pub mod act;
mod checkpoints;
mod servers;
mod terminals;
mod units;
mod verbs;
