//! The screen of a terminal: what is put on it, how it is printed, and which entries are right for it.
//! docs/reference/LANGUAGE.md has the rules.
#![tactic(auto)]

pub mod entries;
pub mod images;
pub mod laws;
pub mod printing;
pub mod show;
pub mod shown;
mod values;
