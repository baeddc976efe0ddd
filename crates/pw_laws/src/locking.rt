//! The laws of locks and records: what an operation sees, what locks keep apart, and what is
//! committed.

pub mod laws;
pub mod operations;
