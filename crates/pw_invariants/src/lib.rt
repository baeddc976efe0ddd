//! Laws alone: what each unit of an application keeps while it runs alone holds in every run of it, whatever the schedule and
//! whatever fails.
//! docs/proof/INVARIANTS.md has the rules.
#![tactic(auto)]

pub mod bank;
pub mod files;
pub mod histories;
pub mod invariants;
