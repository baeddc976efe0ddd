//! What every crate stands on: bytes and lists that contracts see as lists, refusals and which is
//! the first, and the outside as sources and sinks that count their faults.
//! docs/reference/DECK.md has the rules.
#![tactic(auto)]

pub mod bytes;
mod bytes_order;
pub mod fault;
pub mod fault_code;
pub mod laws;
pub mod list;
pub mod mem_sink;
pub mod mem_source;
pub mod memory;
pub mod read_all;
pub mod read_source;
pub mod sink;
pub mod source;
pub mod write_all;
pub mod write_sink;
