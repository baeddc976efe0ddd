//! The server classes: which requests wait for which class, and which process works on which.
//! docs/design/PROTOCOL.md has the rules.
#![tactic(auto)]

pub mod book;
mod classes;
pub mod laws;
mod places;
mod queue;
pub mod request;
mod twin;
mod work;
