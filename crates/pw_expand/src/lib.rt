//! Schedules of transactions over several systems: reading them, and the messages and marks that
//! they make.
//! docs/design/SYSTEMS.md has the rules.
#![tactic(auto)]

pub mod event;
pub mod expand;
pub mod fault;
pub mod laws;
mod line;
mod number;
pub mod play;
pub mod print;
pub mod systems;
