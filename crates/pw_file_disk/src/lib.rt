//! A disk over one file of the system, for a store that lasts. docs/design/STORAGE.md has what is trusted of the file.
#![tactic(auto)]

pub mod change;
pub mod fault;
pub mod file_disk;
pub mod folder;
pub mod host;
pub mod open;
pub mod raw;
#[cfg(test)]
mod tests;
