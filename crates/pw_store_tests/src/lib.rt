//! Tests of the stores: how records lie in blocks, and the bytes of images and trails. They stand beside their crates, since a
//! crate with tests is proved twice.
#![tactic(auto)]

#[cfg(test)]
mod tests;
