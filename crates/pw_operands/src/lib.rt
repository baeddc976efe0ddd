//! What the names of a program stand for, things by their names, and what may stand for each operand of each form.
//! docs/reference/LANGUAGE.md has the rules.
#![tactic(auto)]

pub mod index;
pub mod register;
pub mod variable;
