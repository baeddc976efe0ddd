//! Laws alone: the programs of which decks end, so that their runs are bounded.
//! docs/design/PROTOCOL.md has the rules.
#![tactic(auto)]

pub mod examples;
pub mod laws;
