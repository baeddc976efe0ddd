//! The locks that units hold on the records of files, and which of them conflict.
//! docs/design/PROTOCOL.md has the rules.
#![tactic(auto)]

pub mod book;
mod chain;
mod chains;
pub mod index;
mod keys;
pub mod laws;
pub mod lock;
mod notes;
mod oldest;
mod places;
mod reach;
mod register;
mod release;
mod run;
mod search;
pub mod span;
mod storing;
mod walk;
