//! A disk whose pieces have sums, over another disk: damage of what it keeps is found when it is opened. docs/design/STORAGE.md has
//! the rules.
#![tactic(auto)]

pub mod extent;
pub mod fault;
pub mod laws;
pub mod open;
pub mod plan;
pub mod read;
pub mod sum;
pub mod summed_disk;
