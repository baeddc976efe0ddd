//! The tokens of a source text.
//! docs/reference/LANGUAGE.md has the rules.
#![tactic(auto)]

mod bytes;
pub mod cursor;
mod item;
mod items;
pub mod literal;
mod quoted;
pub mod token;
pub mod tokens;
