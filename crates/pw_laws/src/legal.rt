//! Legality as a test that computes: of the entries of the paired system, and of the blocks of the
//! one-copy machine.

pub mod laws;
