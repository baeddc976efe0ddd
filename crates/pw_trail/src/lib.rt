//! The audit trail: what the units of terminals have changed, on a disk from which it is recovered after a crash.
//! docs/design/STORAGE.md has the rules.
#![tactic(auto)]

pub mod append;
pub mod changes;
pub mod fault;
pub mod group;
pub mod laws;
pub mod log;
pub mod open;
mod piece;
mod read;
pub mod recover;
pub mod restore;
pub mod run;
mod store;
pub mod synced;
pub mod trail;
mod write;
