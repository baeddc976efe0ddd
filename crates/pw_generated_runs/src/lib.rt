//! Laws alone: what each run of a generated deck leaves, whatever the schedule and whatever fails.
//! docs/proof/INVARIANTS.md has the rules.
#![tactic(auto)]

pub mod laws;
