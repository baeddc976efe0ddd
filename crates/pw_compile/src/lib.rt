//! The code of programs: what each statement of a requester or of a server becomes.
//! docs/design/MACHINE.md has the rules.
#![tactic(auto)]

pub mod compile;
mod conditions;
mod emit;
mod numbers;
mod operands;
mod plan;
mod program;
mod sizes;
mod statements;
mod turns;
