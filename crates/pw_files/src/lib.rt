//! Record files: records in the order of their keys, found by key, and a plain form of them.
//! docs/design/STORAGE.md has the rules.
#![tactic(auto)]

pub mod laws;
pub mod record_file;
pub mod sorted_file;
