//! Checkpoint images: the bytes of a context, both ways, and the records of an image that changed.
//! docs/design/ARCHITECTURE.md has the rules.
#![tactic(auto)]

pub mod changed;
pub mod changes;
mod counts;
pub mod decode;
pub mod encode;
pub mod fault;
pub mod laws;
mod reading;
mod records;
