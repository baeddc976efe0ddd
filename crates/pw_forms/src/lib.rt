//! The procedures of programs: their text is cut into pieces, each piece is matched with the forms
//! of the language, and the tree of the statements is built.
//! docs/reference/LANGUAGE.md has the rules.
#![tactic(auto)]

mod block;
mod branch;
mod build;
mod building;
pub mod cond;
mod conditions;
mod cursor;
mod file_forms;
mod form;
mod forms;
mod lack;
pub mod laws;
pub mod lists;
mod literal;
mod mark;
mod names;
pub mod operand;
mod operands;
mod piece;
mod pieces;
pub mod read;
mod reading;
pub mod statement;
mod words;
