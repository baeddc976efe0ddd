//! Workers over one locked world, each of which claims a task, runs it outside the lock and applies what came of it, or does all
//! that in place, and how their run ends.
//! docs/design/ARCHITECTURE.md has the rules.
#![tactic(auto)]

pub mod bounds;
mod calls;
pub mod end;
pub mod ending;
pub mod gate;
mod in_place;
mod lane;
pub mod over;
mod parts;
mod places;
mod shared;
mod turn;
pub mod workers;
