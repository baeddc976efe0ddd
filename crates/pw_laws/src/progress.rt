//! The laws of progress: how often attempts begin and restart, where a step is left, and how a pair
//! is lost.

pub mod laws;
