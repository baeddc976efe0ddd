//! How the source of a program is divided: its divisions, the sections of its data, and the entries of
//! a section.
//! docs/reference/LANGUAGE.md has the rules.
#![tactic(auto)]

pub mod data;
pub mod divisions;
pub mod entries;
pub mod names;
mod steps;
mod using;
