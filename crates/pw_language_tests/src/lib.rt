//! Tests of the tables of words and of the texts of refusals. They stand beside their crates, since a crate with tests is proved
//! twice; what the language's sources come to stands in tests/tables.
#![tactic(auto)]

#[cfg(test)]
mod words;
