//! The monitor at work over the whole paired system: the world, whose log is always a run.
//! docs/design/ARCHITECTURE.md has the rules.
#![tactic(auto)]

mod actors;
pub mod apply;
mod booking;
mod calling;
pub mod claim;
mod contexts;
pub mod counts;
pub mod enter;
mod fails;
mod finding;
pub mod holds;
mod judging;
mod knowing;
mod laws;
mod ledger;
pub mod lend;
mod push;
mod put_back;
pub mod reading;
pub mod replay;
mod running;
mod stamping;
pub mod task;
mod touched;
mod values;
pub mod work;
pub mod world;
