//! Tests of the messages of a pair: what each carries of its image. They stand beside their crate, since a crate with tests is
//! proved twice.
#![tactic(auto)]

#[cfg(test)]
mod messages;
