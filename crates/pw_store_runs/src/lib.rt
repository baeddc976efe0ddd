//! The run of a deck over a store: the deck with which it began, and a trail on a disk. The records that the trail leads to
//! take the place of the deck's own.
//! docs/guide/STORE.md has the rules.
#![tactic(auto)]

pub mod asked;
pub mod ending;
pub mod first;
pub mod kept;
pub mod opened;
pub mod store;
pub mod system;
