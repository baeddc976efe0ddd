//! What compiled code does: where a run stands, what each instruction does, what the code asks after answers, and
//! how a system behaves by its codes.
//! docs/design/MACHINE.md has the rules.
#![tactic(auto)]

pub mod examples;
pub mod laws;
