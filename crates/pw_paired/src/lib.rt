//! The paired system: its state, its steps and runs, and what a log means.
//! docs/design/PROTOCOL.md has the rules.
#![tactic(auto)]

pub mod entries;
