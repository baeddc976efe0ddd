//! Pictures of items: which texts are one, and how numbers and texts are held by them.
//! docs/reference/LANGUAGE.md has the rules.
#![tactic(auto)]

pub mod edit;
mod edited;
pub mod fault;
pub mod grammar;
mod kind;
pub mod laws;
mod number;
pub mod picture;
pub mod read;
mod room;
mod run;
mod runs;
mod store;
pub mod symbols;
pub mod text;
