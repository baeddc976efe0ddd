//! The units of terminals, their changes of files and their locks.
//! docs/design/STORAGE.md has the rules.
#![tactic(auto)]

pub mod answer;
mod committed;
mod copies;
pub mod disc;
pub mod faulty;
mod image;
mod images;
pub mod laws;
mod open_unit;
mod operation;
mod settle;
mod slot;
mod start;
mod stop;
mod store;
pub mod tmf;
