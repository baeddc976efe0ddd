//! The entries of the log and the failure lines: their spelling, and which failure line is due.
//! docs/reference/DECK.md has the rules.
#![tactic(auto)]

mod causes;
pub mod due;
pub mod event;
pub mod fail_line;
pub mod fault;
mod fields;
mod keyword;
mod kinds;
pub mod laws;
mod named;
pub mod names;
pub mod printing;
pub mod reading;
pub mod script;
pub mod sentence;
pub mod system_names;
mod words;
pub mod writing;
