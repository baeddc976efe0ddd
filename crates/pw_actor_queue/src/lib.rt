//! Who acts in a system, what a world notes of each actor, and who comes next of them.
//! docs/design/ARCHITECTURE.md has the rules.
#![tactic(auto)]

pub mod actor;
mod line;
mod places;
pub mod roster;
