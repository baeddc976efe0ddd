//! A disk that may crash: what a read gives now, and what a crash at this moment may leave.
//! docs/design/STORAGE.md has the rules.
#![tactic(auto)]

pub mod disk;
pub mod fault;
pub mod mem_disk;
