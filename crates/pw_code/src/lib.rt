//! The plain types of the monitor: what a deck says, what its programs are compiled to, and what a
//! program at work is.
//! docs/design/MACHINE.md and docs/reference/DECK.md have the rules.
#![tactic(auto)]

pub mod code;
pub mod cond;
pub mod context;
pub mod copies;
pub mod entry;
pub mod field;
pub mod file;
pub mod instr;
pub mod limits;
pub mod links;
pub mod lock;
pub mod names;
pub mod operand;
pub mod place;
pub mod same;
pub mod screen;
pub mod system;
pub mod unit;
pub mod verb;
