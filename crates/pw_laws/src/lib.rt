//! The laws of the paired system: of its runs, its legality, its locks and records, its attempts, its
//! progress, and the headline, that every run is serializable.
//! docs/design/PROTOCOL.md has the rules.
#![tactic(auto)]

pub mod attempts;
pub mod legal;
pub mod locking;
pub mod progress;
pub mod runs;
pub mod serial;
