//! A disc process as a fault-tolerant pair: the disc of docs/design/STORAGE.md, kept by a primary and its backup; the messages between
//! them as bytes, both ways; and the script of its failures.
//! docs/design/STORAGE.md has the rules.
#![tactic(auto)]

pub mod acting;
pub mod backup;
pub mod both;
pub mod call;
mod copies;
pub mod decode;
pub mod encode;
pub mod lasting;
pub mod laws;
mod members;
pub mod outcome;
pub mod pair;
pub mod read_script;
mod reading;
pub mod script;
pub mod standing;
pub mod units;
