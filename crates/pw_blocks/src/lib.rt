//! Record files in blocks: records packed into blocks of bytes, in the order of their keys, and an
//! index of the blocks' first keys.
//! docs/design/STORAGE.md has the rules.
#![tactic(auto)]

mod block;
pub mod block_file;
mod cut;
mod packing;
mod pieces;
mod splice;
