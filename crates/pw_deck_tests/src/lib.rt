//! Tests of the calls between the members of a disc pair, byte by byte, and of the input and output of a call. They stand beside
//! their crates, since a crate with tests is proved twice.
#![tactic(auto)]

#[cfg(test)]
mod tests;
