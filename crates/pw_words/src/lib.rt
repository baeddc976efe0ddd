//! Tables of words: the words of the language and of the commands, and the texts of the refusals.
//! Sets of names.
//! docs/reference/LANGUAGE.md has the rules.
#![tactic(auto)]

pub mod names;
pub mod table;
pub mod texts;
