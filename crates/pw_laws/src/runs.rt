//! The base of the laws: what holds behind every run of the paired system.

pub mod classes;
pub mod laws;
