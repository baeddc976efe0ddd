//! A system whose files have other records than its deck says: that it is one, and behaves as before over these.
#![tactic(auto)]

pub mod alike;
pub mod laws;
pub mod with_records;
