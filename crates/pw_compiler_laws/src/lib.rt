//! That compiled code does what the trees of its programs mean.
//! docs/design/MACHINE.md has the rules.
#![tactic(auto)]

pub mod laws;
