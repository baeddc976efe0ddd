//! The one-copy machine: paths, how a system behaves, operations, attempts, and the machine that
//! runs them one by one.
//! docs/design/PROTOCOL.md has the rules.
#![tactic(auto)]

pub mod examples;
pub mod refresh;
