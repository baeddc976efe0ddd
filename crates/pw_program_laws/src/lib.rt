//! Laws alone: how a fact about what a server of a deck replies, and the files that it leaves then, is shown of its statements,
//! and one about the requests of each unit that commits of a requester's. docs/proof/INVARIANTS.md has the way, and the bank as its
//! example.
#![tactic(auto)]

pub mod laws;
pub mod requests;
