//! Two-phase commit over several systems: what a member does, and that no two systems of a transaction disagree.
//! docs/design/SYSTEMS.md has the rules.
#![tactic(auto)]

mod ballot;
pub mod laws;
pub mod member;
pub mod message;
mod reply;
mod rules;
mod standing;
