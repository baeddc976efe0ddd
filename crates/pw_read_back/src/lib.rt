//! Laws alone: each entry and block of a run has a line, the failure lines of a deck are those of its system, and a run is read
//! back from the text of its report.
//! docs/reference/DECK.md has the rules.
#![tactic(auto)]

pub mod failures;
pub mod laws;
pub mod naming;
