//! Working storage and linkage: the items of a program's data, where each lies in its storage, and
//! the characters with which the storage begins.
//! docs/reference/LANGUAGE.md has the rules.
#![tactic(auto)]

pub mod clauses;
pub mod entries;
pub mod entry;
mod index;
pub mod item;
pub mod laws;
mod lay;
pub mod layout;
pub mod literal;
pub mod names;
mod parts;
pub mod read;
pub mod reading;
mod storage;
mod tree;
pub mod words;
