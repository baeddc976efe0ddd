//! The names of a deck's programs: whether each stands for something, whether each operand has its
//! kind and length, and whether each CALL fits the program that it calls.
//! docs/reference/LANGUAGE.md has the rules.
#![tactic(auto)]

mod calls;
mod forms;
mod known;
pub mod laws;
pub mod names;
mod operands;
mod outside;
mod scope;
mod statements;
mod verbs;
mod wanted;
